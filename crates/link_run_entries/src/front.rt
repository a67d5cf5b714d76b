// What the lines of a run have in common.
ghost use Rattle.std.specs.Prelude.{◌≡◌, ◌+◌, ◌*◌, ◌^◌, ◌<◌, ◌≤◌, ◌++◌, ◌∷◌, [], codes, decimal, length, take};
ghost use Rattle.link_text.specs.Laid.{Lays};
ghost use Rattle.link_run_entries.specs.Groups.{digit};
ghost use Rattle.link_run_entries.specs.Fronts.{both_numbers, tens_text, front_text, IsFront, IsTickText};

use crate::digits::{put_number, put_size};
use crate::store::{put_octet, store};

/// How many octets a tick is stored with.
const TICK: usize = 32;

/// How many octets a front is stored with.
const FRONT: usize = 64;

/// A tick as text, for the lines of all samples that leave at it.
#[derive(Drop)]
pub struct TickText {
    tick: u64,
    // its digits and a space, in front of other octets
    octets: [u8; TICK],
    // where the space ends
    end: usize,
    ghost stands: { IsTickText tick octets end },
}

impl TickText {
    /// That of a tick.
    pub fn new(tick: u64) -> TickText
        ensures { result.tick ≡ tick }
    {
        let mut octets = [0; TICK];
        let end = put_number(&mut octets, 0, tick);
        let end = put_octet(&mut octets, end, b' ');
        TickText { tick, octets, end }
    }
}

// Lays a tick out.
#[inline(always)]
fn put_tick(octets: &mut [u8], at: usize, tick: &TickText) -> usize
    requires { at + 32 ≤ length octets.old }
    ensures lays { Lays (decimal tick.now.tick ++ codes " ") octets.old at octets.new result }
    ensures short { result ≤ at + 21 }
{
    store(octets, at, tick.octets);
    at + tick.end
}

// Lays the tick and the carrier out, and says where they end.
#[inline(always)]
fn put_both(octets: &mut [u8], tick: &TickText, carrier: u32) -> usize
    requires { 64 ≤ length octets.old }
    ensures lays { Lays (both_numbers tick.now.tick carrier) octets.old 0 octets.new result }
    ensures short { result ≤ 32 }
{
    let end = put_tick(octets, 0, tick);
    let end = put_size(octets, end, carrier);
    put_octet(octets, end, b' ')
}

// Lays the digits of a number but the last out, where there are any.
fn put_tens(octets: &mut [u8], at: usize, tens: u64) -> usize
    requires { at + 24 ≤ length octets.old }
    ensures lays { Lays (tens_text tens) octets.old at octets.new result }
    ensures short { result ≤ at + 20 }
{
    if tens == 0 {
        return at;
    }
    put_number(octets, at, tens)
}

/// A line up to the last digit of its number.
#[derive(Drop)]
pub(crate) struct Front {
    tick: u64,
    carrier: u32,
    // the number without its last digit
    tens: u64,
    // its last digit
    last: u8,
    octets: [u8; FRONT],
    // where the digits of the number begin
    start: usize,
    // where the front ends
    end: usize,
    ghost digit: { last < 10 },
    ghost stands: { IsFront tick carrier tens octets start end },
}

impl Front {
    /// That of a number.
    pub(crate) fn new(tick: &TickText, carrier: u32, number: u64) -> Front
        ensures tick { result.tick ≡ tick.now.tick }
        ensures carrier { result.carrier ≡ carrier }
        ensures number { 10 * result.tens + result.last ≡ number }
    {
        let mut octets = [0; FRONT];
        let start = put_both(&mut octets, tick, carrier);
        let tens = number / 10;
        let end = put_tens(&mut octets, start, tens);
        Front {
            tick: tick.tick,
            carrier,
            tens,
            last: (number % 10) as u8,
            octets,
            start,
            end,
        }
    }

    // Goes on to the next ten.
    #[inline(never)]
    fn carry(&mut self)
        requires { self.old.tens < 2 ^ 63 }
        ensures tick { self.new.tick ≡ self.old.tick }
        ensures carrier { self.new.carrier ≡ self.old.carrier }
        ensures tens { self.new.tens ≡ self.old.tens + 1 }
        ensures last { self.new.last ≡ 0 }
    {
        self.tens += 1;
        self.last = 0;
        self.end = put_tens(&mut self.octets, self.start, self.tens);
    }

    /// Goes on to the next number.
    #[inline(always)]
    pub(crate) fn advance(&mut self)
        requires { 10 * self.old.tens + self.old.last < 2 ^ 64 }
        ensures tick { self.new.tick ≡ self.old.tick }
        ensures carrier { self.new.carrier ≡ self.old.carrier }
        ensures number { 10 * self.new.tens + self.new.last ≡ 10 * self.old.tens + self.old.last + 1 }
    {
        if self.last < 9 {
            self.last += 1;
        } else {
            self.carry();
        }
    }

    /// Lays the line up to its number out.
    #[inline(always)]
    pub(crate) fn put(&self, octets: &mut [u8], at: usize) -> usize
        requires { at + 64 ≤ length octets.old }
        ensures lays { Lays (front_text self.now.tick self.now.carrier self.now.tens ++ digit self.now.last ∷ []) octets.old at octets.new result }
        ensures short { result ≤ at + 53 }
    {
        store(octets, at, self.octets);
        put_octet(octets, at + self.end, b'0' + self.last)
    }
}

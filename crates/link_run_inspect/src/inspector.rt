//! The feed of a line: a header, and a line of symbols for each basic frame.

ghost use Rattle.std.specs.Prelude.{◌≡◌, ◌+◌, ◌-◌, ◌*◌, ◌/◌, ◌%◌, ◌<◌, ◌≤◌, ◌==◌, ◌++◌, ◌∷◌, [], ℕ, List, length, take, ◌^◌, codes, IfOk, IfSome, IfNone, OnOk, OnErr, Some, None, decimal as decimal_text};
ghost use Rattle.link_base.specs.Faults.{HasCause};
ghost use Rattle.link_text.specs.Decimals.{decimal_value};
ghost use Rattle.link_text.specs.Hexadecimal.{spelled_octets};
ghost use Rattle.link_text.specs.Gathered.{Gathers, BreaksOff, text_capacity};
ghost use Rattle.link_text.specs.Printed.{ended};
ghost use Rattle.link_base.specs.WordSize.{IsWordSize};
ghost use Rattle.line_code.specs.Packed.{symbols_in};
ghost use Rattle.link_run_inspect.specs.Changes.{changes_text};
ghost use Rattle.link_run_inspect.specs.Inspect.{Inspected, opened, opened_by, word_size, frame_octets, frame_text, frame_line, with_frame};

use crate::changes::Changes;
use crate::channels::Channels;
use crate::reception::Reception;
use link_base::{Failed, NoMemory, Sink};
use link_run_feed::{Feed, Reading, Reason};
use link_text::{TextBuffer, at_first_space, decimal, octets};
use std::alloc::Global;

/// The most frames of a line.
const LIMIT: u64 = 2_097_152;

/// How many octets the lines of what a frame changes have at most.
const LINES: usize = 512;

/// The digits from which on they are read by lanes.
const LANES: usize = 64;

/// The octets of the symbols of the longest frame.
const LONGEST: usize = 320;

/// The basic frames of a line, as far as they are read.
#[derive(Drop)]
pub struct Inspector {
    /// How many frames the header announces.
    pub(crate) due: u64,
    pub(crate) reception: Reception,
    pub(crate) channels: Channels,
    pub ghost in_limit: { due ≤ 2097152 },
    pub ghost within: { reception.number ≤ due },
}

/// The octets of a word, and how many frames the header announces: `line OPTION N`.
fn header(line: &[u8]) -> Option<(usize, u64)>
    ensures some { IfSome result (λ h. opened_by line.now ≡ Some (record { width = h.0; due = h.1; frames = [] }, [])) }
    ensures none { IfNone result (opened_by line.now ≡ None) }
    ensures size { IfSome result (λ h. IsWordSize h.0) }
    ensures limit { IfSome result (λ h. h.1 ≤ 2097152) }
{
    let (word, rest) = at_first_space(line)?;
    if word != b"line".as_slice() {
        return None;
    }
    let (option, due) = at_first_space(rest)?;
    numbers(option, due)
}

/// The octets of a word at an option, and a count of frames, where both are numbers within their limits.
fn numbers(option: &[u8], due: &[u8]) -> Option<(usize, u64)>
    ensures some { IfSome result (λ h. opened (decimal_value option.now) (decimal_value due.now) ≡ Some (record { width = h.0; due = h.1; frames = [] }, [])) }
    ensures none { IfNone result (opened (decimal_value option.now) (decimal_value due.now) ≡ None) }
    ensures size { IfSome result (λ h. IsWordSize h.0) }
    ensures limit { IfSome result (λ h. h.1 ≤ 2097152) }
{
    let option = decimal(option, 7)?;
    let due = decimal(due, LIMIT)?;
    let width = word_size(option)?;
    Some((width, due))
}

/// The octets of a word at the option of this number.
fn word_size(option: u64) -> Option<usize>
    requires { option ≤ 7 }
    ensures some { IfSome result (λ size. (size ≡ word_size option) × (1 ≤ option)) }
    ensures none { IfNone result (option ≡ 0) }
    ensures size { IfSome result IsWordSize }
{
    match option {
        1 => Some(1),
        2 => Some(2),
        3 => Some(4),
        4 => Some(5),
        5 => Some(8),
        6 => Some(10),
        7 => Some(16),
        _ => None,
    }
}

/// Puts the octets of digits that are too few for lanes to the front of a buffer, and says how many they are: they are read with
/// digits 0 behind them. None where they are not digits alone.
fn few_octets(digits: &[u8], buffer: &mut [u8; LONGEST]) -> Option<usize>
    requires some { 0 < length digits.now }
    requires few { length digits.now < 64 }
    requires pairs { length digits.now % 2 ≡ 0 }
    ensures some { IfSome result (λ n. spelled_octets digits.now ≡ Some (take n buffer.new)) }
    ensures count { IfSome result (λ n. n ≡ length digits.now / 2) }
    ensures none { IfNone result (spelled_octets digits.now ≡ None) }
{
    let mut filled = [b'0'; LANES];
    filled[..digits.len()].copy_from_slice(digits);
    match octets(&filled, buffer) {
        Some(_) => Some(digits.len() / 2),
        None => None,
    }
}

/// Puts the octets of a frame's symbols to the front of a buffer, and says how many they are. None where the line has not two
/// digits for each.
fn frame_octets(width: usize, line: &[u8], buffer: &mut [u8; LONGEST]) -> Option<usize>
    requires { IsWordSize width }
    ensures some { IfSome result (λ n. frame_octets width line.now ≡ Some (take n buffer.new)) }
    ensures count { IfSome result (λ n. n ≡ 20 * width) }
    ensures none { IfNone result (frame_octets width line.now ≡ None) }
{
    if line.len() != 40 * width {
        return None;
    }
    if line.len() < LANES {
        return few_octets(line, buffer);
    }
    match octets(line, buffer) {
        Some(count) => Some(count),
        None => None,
    }
}

/// Appends the lines of what a frame changes.
fn put_changes<K: Sink>(changes: &Changes, text: &mut TextBuffer, out: &mut K) -> Result<(), Failed>
    ensures cause { HasCause (K.taken out.old).faults (K.taken out.new).faults result }
    ensures gathers { OnOk result (Gathers (changes_text changes.now) text.old (K.taken out.old) text.new (K.taken out.new)) }
    ensures fails { OnErr result (BreaksOff (changes_text changes.now) text.old (K.taken out.old) (K.taken out.new)) }
{
    if changes.is_none() {
        return Ok(());
    }
    match text.make_room(LINES, out) {
        Ok(()) => {
            changes.put(text);
            Ok(())
        }
        Err(failed) => Err(failed),
    }
}

impl Inspector {
    ghost use Rattle.link_run_inspect.specs.Inspects.{Inspects};

    /// Before the first frame. All memory that is needed is taken here.
    fn begin(alloc: Global, width: usize, due: u64) -> Result<Inspector, NoMemory>
        requires size { IsWordSize width }
        requires limit { due ≤ 2097152 }
        ensures begun { IfOk result (λ i. Inspects i (record { width = width; due = due; frames = [] })) }
        ensures few { IfOk result (λ i. i.due - i.reception.number ≤ 2 ^ 40) }
    {
        let reception = Reception::begin(alloc, width)?;
        let channels = Channels::begin(alloc)?;
        Ok(Inspector {
            due,
            reception,
            channels,
        })
    }

    /// Takes the next frame, and appends what it shows.
    fn take<K: Sink>(
        &mut self,
        octets: &[u8],
        text: &mut TextBuffer,
        out: &mut K,
    ) -> Result<(), Failed>
        requires frame { length octets.now ≡ 20 * self.old.reception.width }
        requires room { self.old.reception.number < self.old.due }
        ensures cause { HasCause (K.taken out.old).faults (K.taken out.new).faults result }
        ensures inspects { OnOk result ((s : Inspected) → Inspects self.old s → Inspects self.new (with_frame s (symbols_in octets.now))) }
        ensures gathers { OnOk result ((s : Inspected) → Inspects self.old s
            → Gathers (frame_text s.width s.frames (symbols_in octets.now)) text.old (K.taken out.old) text.new (K.taken out.new)) }
        ensures fails { OnErr result ((s : Inspected) → Inspects self.old s
            → BreaksOff (frame_text s.width s.frames (symbols_in octets.now)) text.old (K.taken out.old) (K.taken out.new)) }
        ensures fewer { OnOk result ((self.new.reception.number ≡ self.old.reception.number + 1) × (self.new.due ≡ self.old.due)) }
    {
        let changes = self.reception.take(octets);
        match put_changes(&changes, text, out) {
            Ok(()) => {}
            Err(failed) => return Err(failed),
        }
        match self.channels.follow(
            &changes,
            self.reception.state,
            self.reception.width,
            &self.reception.in_hand.control,
            text,
            out,
        ) {
            Ok(()) => Ok(()),
            Err(failed) => Err(failed),
        }
    }

    /// Appends the last line.
    fn put_totals(&self, text: &mut TextBuffer)
        requires { length text.old + 128 ≤ text_capacity }
        ensures { text.new ≡ text.old ++ ended (codes "end " ++ decimal_text self.now.reception.number ++ codes " " ++ decimal_text self.now.reception.violations) }
    {
        text.put(b"end ");
        text.put_number(self.reception.number);
        text.put(b" ");
        text.put_number(self.reception.violations);
        text.put(b"\n");
    }
}

impl Feed for Inspector {
    ghost use Rattle.std.specs.Prelude.{◌-◌};
    ghost use Rattle.link_run_inspect.specs.Inspect.{Inspected as Read, inspect_form};
    ghost use Rattle.link_run_inspect.specs.Inspects.{Inspects};

    type Given = ();

    ghost State = { Read };

    ghost can_open = { λ _. Unit {0} };

    ghost header = { λ _. inspect_form.header };

    ghost lines = { inspect_form.lines };

    ghost stands = { Inspects };

    ghost opens = { λ w s text. Inspects w s × (text ≡ []) };

    ghost ended = { Inspects };

    ghost lines_left = { λ i. i.due - i.reception.number };

    fn open(_: &(), alloc: Global, line: &[u8]) -> Result<Option<Inspector>, NoMemory> {
        match header(line) {
            Some((width, due)) => Ok(Some(Inspector::begin(alloc, width, due)?)),
            None => Ok(None),
        }
    }

    fn begin<K: Sink>(&mut self, _text: &mut TextBuffer, _out: &mut K) -> Result<(), Failed> {
        Ok(())
    }

    fn may_end(&self) -> bool {
        self.reception.number == self.due
    }

    fn read<K: Sink>(
        &mut self,
        line: &[u8],
        text: &mut TextBuffer,
        out: &mut K,
    ) -> Result<Reading, Failed> {
        if self.reception.number == self.due {
            return Ok(Reading::Bad(Reason::Count));
        }
        let mut buffer = [0; LONGEST];
        let Some(count) = frame_octets(self.reception.width, line, &mut buffer) else {
            return Ok(Reading::Bad(Reason::Hex));
        };
        match self.take(&buffer[..count], text, out) {
            Ok(()) => Ok(Reading::Good),
            Err(failed) => Err(failed),
        }
    }

    fn end<K: Sink>(&mut self, _text: &mut TextBuffer, _out: &mut K) -> Result<(), Failed> {
        Ok(())
    }

    fn close<K: Sink>(&mut self, text: &mut TextBuffer, out: &mut K) -> Result<(), Failed> {
        match text.make_room(LINES, out) {
            Ok(()) => {
                self.put_totals(text);
                Ok(())
            }
            Err(failed) => Err(failed),
        }
    }
}

// The feed of a start-up: a header with the caps of two ends, and a list of events.
ghost use Rattle.std.specs.Prelude.{◌≡◌, ◌<◌, ◌≤◌, ◌+◌, ◌-◌, ◌++◌, ◌==◌, ◌∷◌, [], ℕ, length, codes, IfOk, IfErr, OnErr, decimal as decimal_text, IfSome, IfNone, IsSome, Some, None, Ok, Err};
ghost use Rattle.std.specs.Option.{option_map};
ghost use Rattle.link_text.specs.Decimals.{decimal_value};
ghost use Rattle.link_text.specs.Gathered.{text_capacity};
ghost use Rattle.startup_machine.specs.Offers.{greatest_offer};
ghost use Rattle.startup_machine.specs.World.{end_name, side_of};
ghost use Rattle.link_text.specs.Fields.{fields_of};
ghost use Rattle.link_run_startup.specs.Events.{caps_of, header_caps, event_named, end_numbered, event_of, number_of, letter_of, end_line, line_after, step_by, event_lines};

use link_base::{Failed, NoMemory, Sink};
use link_run_feed::{Feed, Reading, Reason};
use link_text::{TextBuffer, at_first_space, decimal};
use startup_machine::{Caps, Event, Offer, State, World};
use std::alloc::Global;

/// How many events there may be.
const LIMIT: u32 = 65_536;

/// How many octets the line of an end, or the last line, has at most.
const LINE: usize = 128;

/// Two ends, and how many events there were.
#[derive(Drop)]
pub struct Events {
    pub world: World,
    pub count: u32,
}

// The caps that two fields give, if they are in range.
fn caps_of(hdlc: &[u8], pointer: &[u8]) -> Option<Caps>
    ensures some { IfSome result (λ caps. caps_of (decimal_value hdlc.now) (decimal_value pointer.now) ≡ Some (greatest_offer caps)) }
    ensures none { IfNone result (caps_of (decimal_value hdlc.now) (decimal_value pointer.now) ≡ None) }
{
    Caps::of(decimal(hdlc, u64::MAX)?, decimal(pointer, u64::MAX)?)
}

/// The caps of both ends, if the line is a header: `startup H1 P1 H2 P2`.
pub fn header_caps(line: &[u8]) -> Option<(Caps, Caps)>
    ensures some { IfSome result (λ caps. header_caps (fields_of line.now) ≡ Some (greatest_offer caps.0, greatest_offer caps.1)) }
    ensures none { IfNone result (header_caps (fields_of line.now) ≡ None) }
{
    let (word, rest) = at_first_space(line)?;
    let (hdlc, rest) = at_first_space(rest)?;
    let (pointer, rest) = at_first_space(rest)?;
    let (other_hdlc, other_pointer) = at_first_space(rest)?;
    if word != b"startup".as_slice() {
        return None;
    }
    Some((caps_of(hdlc, pointer)?, caps_of(other_hdlc, other_pointer)?))
}

// The event of this name.
fn event_named(word: &[u8]) -> Option<Event>
    ensures { result ≡ event_named word.now }
{
    match word {
        b"start" => Some(Event::Start),
        b"tell" => Some(Event::Tell),
        b"hear" => Some(Event::Hear),
        b"lose" => Some(Event::Lose),
        b"again" => Some(Event::Again),
        b"agree" => Some(Event::Agree),
        b"silence" => Some(Event::Silence),
        b"reset" => Some(Event::Reset),
        _ => None,
    }
}

// The number, from 0, of the end that files number from 1.
fn end_numbered(text: &[u8]) -> Option<usize>
    ensures end { option_map end_name result ≡ end_numbered text.now }
    ensures one_of_two { IfSome result (λ end. end < 2) }
{
    match text {
        b"1" => Some(0),
        b"2" => Some(1),
        _ => None,
    }
}

// The event of a line, `WORD END`, or why it is none.
fn event_of(line: &[u8]) -> Result<(usize, Event), Reason>
    ensures ok { IfOk result (λ e. event_of line.now ≡ Ok (end_name e.0, e.1)) }
    ensures one_of_two { IfOk result (λ e. e.0 < 2) }
    ensures err { IfErr result (λ reason. event_of line.now ≡ Err reason) }
{
    let Some((word, end)) = at_first_space(line) else {
        return Err(Reason::Word);
    };
    let Some(event) = event_named(word) else {
        return Err(Reason::Word);
    };
    match end_numbered(end) {
        Some(end) => Ok((end, event)),
        None => Err(Reason::Number),
    }
}

// The letter of a state.
fn letter_of(state: State) -> u8
    ensures { letter_of state ≡ result ∷ [] }
{
    match state {
        State::A => b'A',
        State::B => b'B',
        State::C => b'C',
        State::D => b'D',
        State::E => b'E',
        State::F => b'F',
        State::G => b'G',
    }
}

// The line of an end: its number from 1, its state and its offer.
#[tactic(auto, unfolding(crate::specs::Events::end_line))]
fn put_end_line(number: u64, state: State, offer: Offer, text: &mut TextBuffer)
    requires room { length text.old + 128 ≤ text_capacity }
    requires small { number < 3 }
    ensures { text.new ≡ text.old ++ end_line number state offer }
{
    text.put_number(number);
    text.put_octet(b' ');
    text.put_octet(letter_of(state));
    text.put_octet(b' ');
    text.put_number(u64::from(offer.hdlc));
    text.put_octet(b' ');
    text.put_number(u64::from(offer.pointer));
    text.put_octet(b'\n');
}

impl Events {
    // Lets the event of a line happen, and gives its end. Nothing changes where the line is bad.
    fn happen(&mut self, line: &[u8]) -> Result<usize, Reason>
        ensures ok { IfOk result (λ end. step_by self.old (event_of line.now) ≡ Ok (self.new, line_after (end_name end) self.new)) }
        ensures one_of_two { IfOk result (λ end. end < 2) }
        ensures few { IfOk result (λ _. (self.old.count < 65536) × (self.new.count ≡ self.old.count + 1)) }
        ensures err { IfErr result (λ reason. step_by self.old (event_of line.now) ≡ Err reason) }
        ensures same { OnErr result (self.new ≡ self.old) }
    {
        let (end, event) = event_of(line)?;
        if self.count >= LIMIT {
            return Err(Reason::Many);
        }
        match self.world.event(end, event) {
            Ok(()) => {
                self.count += 1;
                Ok(end)
            }
            Err(_) => Err(Reason::Many),
        }
    }

    // Appends the line of an end.
    fn put_line(&self, end: usize, text: &mut TextBuffer)
        requires room { length text.old + 128 ≤ text_capacity }
        requires one_of_two { end < 2 }
        ensures { text.new ≡ text.old ++ line_after (end_name end) self.now }
    {
        let (state, offer) = self.world.look(end);
        put_end_line(end as u64 + 1, state, offer, text);
    }
}

impl Feed for Events {
    ghost use Rattle.std.specs.Prelude.{◌≡◌};
    ghost use Rattle.link_run_startup.specs.declared.events.Events.{Events as Kept};
    ghost use Rattle.link_run_startup.specs.Events.{events_form};

    type Given = ();

    ghost State = { Kept };

    ghost can_open = { λ _. Unit {0} };

    ghost header = { λ _. events_form.header };

    ghost lines = { events_form.lines };

    ghost stands = { λ w s. w ≡ s };

    ghost opens = { λ w s text. (w ≡ s) × (text ≡ []) };

    ghost ended = { λ w s. w ≡ s };

    ghost lines_left = { λ s. 65536 - s.count };

    fn open(_: &(), alloc: Global, line: &[u8]) -> Result<Option<Events>, NoMemory> {
        match header_caps(line) {
            Some(caps) => Ok(Some(Events {
                world: World::begin(alloc, caps.0, caps.1)?,
                count: 0,
            })),
            None => Ok(None),
        }
    }

    fn begin<K: Sink>(&mut self, _text: &mut TextBuffer, _out: &mut K) -> Result<(), Failed> {
        Ok(())
    }

    fn may_end(&self) -> bool {
        true
    }

    fn read<K: Sink>(
        &mut self,
        line: &[u8],
        text: &mut TextBuffer,
        out: &mut K,
    ) -> Result<Reading, Failed> {
        let end = match self.happen(line) {
            Ok(end) => end,
            Err(reason) => return Ok(Reading::Bad(reason)),
        };
        match text.make_room(LINE, out) {
            Ok(()) => {
                self.put_line(end, text);
                Ok(Reading::Good)
            }
            Err(failed) => Err(failed),
        }
    }

    fn end<K: Sink>(&mut self, _text: &mut TextBuffer, _out: &mut K) -> Result<(), Failed> {
        Ok(())
    }

    fn close<K: Sink>(&mut self, text: &mut TextBuffer, out: &mut K) -> Result<(), Failed> {
        match text.make_room(LINE, out) {
            Ok(()) => {
                text.put(b"end\n");
                Ok(())
            }
            Err(failed) => Err(failed),
        }
    }
}

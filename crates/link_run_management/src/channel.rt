//! A management channel whose octets come one after another, and the lines of what its reader finds in them.

ghost use Rattle.std.specs.Prelude.{◌≡◌, ◌+◌, ◌<◌, ◌≤◌, ℕ, Bool, List, [], length, take, drop, None, IfOk, OnOk, OnErr};
ghost use Rattle.std.specs.Option.{option_copied};
ghost use Rattle.link_base.specs.Faults.{HasCause};
ghost use Rattle.hdlc_channel.specs.Bits.{bits_of, octet_bits};
ghost use Rattle.hdlc_channel.specs.Reader.{StandsFor as SlowStandsFor};
ghost use Rattle.link_run_management.specs.Events.{slow_line};
ghost use Rattle.link_run_management.specs.HandsIn.{HandsIn, BreaksAmong};
ghost use Rattle.link_run_management.specs.Following.{Follows, BreaksInFrame};

use crate::events::{LINE, put_fast, put_line, put_slow};
use ethernet_channel::FastReader;
use hdlc_channel::SlowReader;
use link_base::{Failed, Sink};
use link_text::TextBuffer;

/// A reader that takes the octets of a channel one after another, each from its lowest bit on.
pub trait Channel: Drop {
    /// The reader was handed these bits.
    ghost stands: { Self → List Bool → Type 0 };

    /// The line about the last of these bits.
    ghost line: { ℕ → List Bool → List ℕ };

    /// What is said of a frame that cuts the channel.
    ghost missed: { List ℕ };

    /// What is said of a frame that cuts the channel.
    fn missed_words(&self) -> &'static str
        ensures words { result.now ≡ missed }
        ensures few { length result.now ≤ 40 };

    /// Begins anew, as though no bit had been handed in.
    fn begin_anew(&mut self)
        ensures { stands self.new [] };

    /// Hands in the bits of an octet, and appends the lines of what they complete.
    fn take<K: Sink>(
        &mut self,
        number: u64,
        octet: u8,
        text: &mut TextBuffer,
        out: &mut K,
    ) -> Result<(), Failed>
        ensures cause { HasCause (K.taken out.old).faults (K.taken out.new).faults result }
        ensures hands { OnOk result (HandsIn stands line number (octet_bits octet) self.old self.new text.old (K.taken out.old) text.new (K.taken out.new)) }
        ensures fails { OnErr result (BreaksAmong stands line number (octet_bits octet) self.old text.old (K.taken out.old) (K.taken out.new)) };
}

impl Channel for SlowReader {
    ghost use Rattle.hdlc_channel.specs.Reader.{StandsFor};
    ghost use Rattle.std.specs.Prelude.{codes};
    ghost use Rattle.link_run_management.specs.Events.{slow_line};

    ghost stands = { StandsFor };

    ghost line = { slow_line };

    ghost missed = { codes "slow missed" };

    fn missed_words(&self) -> &'static str {
        "slow missed"
    }

    fn begin_anew(&mut self) {
        self.restart();
    }

    fn take<K: Sink>(
        &mut self,
        number: u64,
        octet: u8,
        text: &mut TextBuffer,
        out: &mut K,
    ) -> Result<(), Failed> {
        let mut from = 0;
        while from < 8 {
            match push_slow(self, number, octet, from, text, out) {
                Ok(bits) => from += bits,
                Err(failed) => return Err(failed),
            }
        }
        Ok(())
    }
}

impl Channel for FastReader {
    ghost use Rattle.ethernet_channel.specs.Keeps.{StandsFor};
    ghost use Rattle.std.specs.Prelude.{codes};
    ghost use Rattle.link_run_management.specs.Events.{fast_line};

    ghost stands = { StandsFor };

    ghost line = { fast_line };

    ghost missed = { codes "fast missed" };

    fn missed_words(&self) -> &'static str {
        "fast missed"
    }

    fn begin_anew(&mut self) {
        self.restart();
    }

    fn take<K: Sink>(
        &mut self,
        number: u64,
        octet: u8,
        text: &mut TextBuffer,
        out: &mut K,
    ) -> Result<(), Failed> {
        let event = match self.push_octet(octet) {
            Some(event) => event,
            None => return Ok(()),
        };
        match text.make_room(LINE, out) {
            Ok(()) => {
                put_fast(number, event, self.frame(), text);
                Ok(())
            }
            Err(failed) => Err(failed),
        }
    }
}

/// Hands in the bits of an octet from bit `from` on, up to the first that completes something, and appends the line of what it
/// completes. Says how many bits they are.
fn push_slow<K: Sink>(
    reader: &mut SlowReader,
    number: u64,
    octet: u8,
    from: u32,
    text: &mut TextBuffer,
    out: &mut K,
) -> Result<u32, Failed>
    requires { from < 8 }
    ensures cause { HasCause (K.taken out.old).faults (K.taken out.new).faults result }
    ensures some { IfOk result (λ bits. 1 ≤ bits) }
    ensures within { IfOk result (λ bits. from + bits ≤ 8) }
    ensures hands { IfOk result (λ bits. HandsIn SlowStandsFor slow_line number (take bits (drop from (octet_bits octet))) reader.old reader.new text.old (K.taken out.old) text.new (K.taken out.new)) }
    ensures fails { OnErr result (BreaksAmong SlowStandsFor slow_line number (drop from (octet_bits octet)) reader.old text.old (K.taken out.old) (K.taken out.new)) }
{
    let taken = reader.push_octet(octet, from);
    let event = match taken.event {
        Some(event) => event,
        None => return Ok(taken.bits),
    };
    match text.make_room(LINE, out) {
        Ok(()) => {
            put_slow(number, event, reader.frame(), text);
            Ok(taken.bits)
        }
        Err(failed) => Err(failed),
    }
}

/// Hands in octets, each from its lowest bit on, and appends the lines of what they complete.
pub fn push_octets<C: Channel, K: Sink>(
    channel: &mut C,
    number: u64,
    octets: &[u8],
    text: &mut TextBuffer,
    out: &mut K,
) -> Result<(), Failed>
    ensures cause { HasCause (K.taken out.old).faults (K.taken out.new).faults result }
    ensures hands { OnOk result (HandsIn C.stands C.line number (bits_of octets.now) channel.old channel.new text.old (K.taken out.old) text.new (K.taken out.new)) }
    ensures fails { OnErr result (BreaksAmong C.stands C.line number (bits_of octets.now) channel.old text.old (K.taken out.old) (K.taken out.new)) }
{
    for octet in octets {
        match channel.take(number, *octet, text, out) {
            Ok(()) => {}
            Err(failed) => return Err(failed),
        }
    }
    Ok(())
}

/// Cuts a channel at a frame that is missed, and appends the line that says so.
fn cut<C: Channel, K: Sink>(
    channel: &mut C,
    tick: u64,
    text: &mut TextBuffer,
    out: &mut K,
) -> Result<(), Failed>
    ensures cause { HasCause (K.taken out.old).faults (K.taken out.new).faults result }
    ensures follows { OnOk result (Follows C.stands C.line C.missed tick None channel.old channel.new text.old (K.taken out.old) text.new (K.taken out.new)) }
    ensures fails { OnErr result (BreaksInFrame C.stands C.line C.missed tick None channel.old text.old (K.taken out.old) (K.taken out.new)) }
{
    match text.make_room(LINE, out) {
        Ok(()) => {
            put_line(tick, channel.missed_words(), text);
            channel.begin_anew();
            Ok(())
        }
        Err(failed) => Err(failed),
    }
}

/// Follows a frame that carries these octets of a channel, or one that is missed and cuts it. Appends the lines of what is found.
pub(crate) fn follow<C: Channel, K: Sink>(
    channel: &mut C,
    tick: u64,
    octets: Option<&[u8]>,
    text: &mut TextBuffer,
    out: &mut K,
) -> Result<(), Failed>
    ensures cause { HasCause (K.taken out.old).faults (K.taken out.new).faults result }
    ensures follows { OnOk result (Follows C.stands C.line C.missed tick (option_copied octets.entry) channel.old channel.new text.old (K.taken out.old) text.new (K.taken out.new)) }
    ensures fails { OnErr result (BreaksInFrame C.stands C.line C.missed tick (option_copied octets.entry) channel.old text.old (K.taken out.old) (K.taken out.new)) }
{
    match octets {
        Some(octets) => push_octets(channel, tick, octets, text, out),
        None => cut(channel, tick, text, out),
    }
}

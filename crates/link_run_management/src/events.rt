//! The lines of what the readers of the management channels find.

ghost use Rattle.std.specs.Prelude.{codes, decimal, ◌≡◌, ◌+◌, ◌*◌, ◌≤◌, ◌++◌, ◌∷◌, [], length};
ghost use Rattle.hex.specs.Hex.{encode_lower};
ghost use Rattle.link_text.specs.Gathered.{text_capacity};
ghost use Rattle.link_run_management.specs.Events.{numbered, slow_words, fast_words};

use arrayvec::ArrayVec;
use ethernet_channel::FastEvent;
use hdlc_channel::SlowEvent;
use link_text::{TextBuffer, put_hex};

/// The octets that the line of an event has at most.
pub(crate) const LINE: usize = 4096;

/// Appends a line about this number, which is that of a frame or of a tick.
pub fn put_line(number: u64, words: &str, text: &mut TextBuffer)
    requires room { length text.old + 64 ≤ text_capacity }
    requires few { length words.now ≤ 40 }
    ensures text { text.new ≡ text.old ++ numbered number words.now }
    ensures short { length text.new ≤ length text.old + 64 }
{
    text.put_number(number);
    text.put(b" ");
    text.put(words.as_bytes());
    text.put(b"\n");
}

/// Appends a line about this number, which is that of a frame or of a tick, that says another one.
pub fn put_count(number: u64, words: &str, count: u64, text: &mut TextBuffer)
    requires room { length text.old + 84 ≤ text_capacity }
    requires few { length words.now ≤ 40 }
    ensures text { text.new ≡ text.old ++ numbered number (words.now ++ decimal count) }
    ensures short { length text.new ≤ length text.old + 84 }
{
    text.put_number(number);
    text.put(b" ");
    text.put(words.as_bytes());
    text.put_number(count);
    text.put(b"\n");
}

/// Appends the line of a frame.
fn put_frame(number: u64, words: &str, frame: &[u8], text: &mut TextBuffer)
    requires room { length text.old + 4096 ≤ text_capacity }
    requires few { length words.now ≤ 40 }
    requires short { length frame.now ≤ 1522 }
    ensures { text.new ≡ text.old ++ numbered number (words.now ++ encode_lower frame.now) }
{
    let mut digits = ArrayVec::new();
    put_hex(&mut digits, frame);
    text.put_number(number);
    text.put(b" ");
    text.put(words.as_bytes());
    text.put(digits.as_slice());
    text.put(b"\n");
}

/// Appends the line of a frame whose sequence is wrong.
fn put_bad_fcs(number: u64, got: u16, want: u16, text: &mut TextBuffer)
    requires { length text.old + 128 ≤ text_capacity }
    ensures { text.new ≡ text.old ++ numbered number (codes "slow fcs " ++ decimal got ++ codes " " ++ decimal want) }
{
    text.put_number(number);
    text.put(b" slow fcs ");
    text.put_number(u64::from(got));
    text.put(b" ");
    text.put_number(u64::from(want));
    text.put(b"\n");
}

/// Appends the line of an event of the slow channel, with the octets of the last frame.
pub(crate) fn put_slow(number: u64, event: SlowEvent, frame: &[u8], text: &mut TextBuffer)
    requires room { length text.old + 4096 ≤ text_capacity }
    requires short { length frame.now ≤ 1522 }
    ensures { text.new ≡ text.old ++ numbered number (slow_words event frame.now) }
{
    match event {
        SlowEvent::Frame => put_frame(number, "slow ", frame, text),
        SlowEvent::Aborted => put_line(number, "slow aborted", text),
        SlowEvent::TooShort { bits } => put_count(number, "slow short ", u64::from(bits), text),
        SlowEvent::Uneven { bits } => put_count(number, "slow uneven ", u64::from(bits), text),
        SlowEvent::BadFcs { got, want } => put_bad_fcs(number, got, want, text),
        SlowEvent::TooLong => put_line(number, "slow long", text),
    }
}

/// Appends the line of an event of the fast channel, with the octets of the last frame.
pub(crate) fn put_fast(number: u64, event: FastEvent, frame: &[u8], text: &mut TextBuffer)
    requires room { length text.old + 4096 ≤ text_capacity }
    requires short { length frame.now ≤ 1522 }
    ensures { text.new ≡ text.old ++ numbered number (fast_words event frame.now) }
{
    match event {
        FastEvent::Frame => put_frame(number, "fast ", frame, text),
        FastEvent::BadPreamble => put_line(number, "fast preamble", text),
        FastEvent::BadGroup { code } => put_count(number, "fast group ", u64::from(code), text),
        FastEvent::NoEnd { code } => put_count(number, "fast noend ", u64::from(code), text),
        FastEvent::Odd => put_line(number, "fast odd", text),
        FastEvent::Empty => put_line(number, "fast empty", text),
        FastEvent::TooLong => put_line(number, "fast long", text),
    }
}

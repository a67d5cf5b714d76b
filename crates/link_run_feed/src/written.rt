// Text that is written before a status is given.
ghost use Rattle.std.specs.Prelude.{◌≡◌, ◌+◌, ◌^◌, ◌<◌, ◌≤◌, ◌++◌, length};
ghost use Rattle.link_text.specs.Gathered.{text_capacity};
ghost use Rattle.link_run_feed.specs.Given.{IsGiven};
ghost use Rattle.link_run_feed.specs.Reasons.{bad_line};

use crate::reason::Reason;
use crate::status::Status;
use link_base::{Failed, Sink, put_all};
use link_text::TextBuffer;

/// How many octets the line has at most that refuses a feed.
const BAD_LINE: usize = 64;

/// Writes a whole text, and then gives this status.
pub fn give<K: Sink>(status: Status, text: &[u8], out: &mut K) -> Status
    ensures { IsGiven status text.now (K.taken out.old) (K.taken out.new) result }
{
    match put_all(out, text) {
        Ok(()) => status,
        Err(Failed) => Status::WriteFault,
    }
}

/// Writes the text in hand, and then gives this status.
pub(crate) fn give_text<K: Sink>(status: Status, text: &mut TextBuffer, out: &mut K) -> Status
    ensures { IsGiven status text.old (K.taken out.old) (K.taken out.new) result }
{
    match text.flush(out) {
        Ok(()) => status,
        Err(Failed) => Status::WriteFault,
    }
}

// Appends the line that says which line is bad, and why.
#[tactic(auto, unfolding(crate::specs::Reasons::bad_line))]
fn put_bad_line(number: u64, reason: Reason, text: &mut TextBuffer)
    requires room { length text.old + 64 ≤ text_capacity }
    requires fits { number < 2 ^ 63 }
    ensures { text.new ≡ text.old ++ bad_line number reason }
{
    text.put(b"bad ");
    text.put_number(number);
    text.put(b" ");
    text.put(reason.word().as_bytes());
    text.put(b"\n");
}

/// Refuses a feed at the line of this number: writes the text in hand, and then the line that says so.
pub(crate) fn refuse<K: Sink>(
    number: u64,
    reason: Reason,
    text: &mut TextBuffer,
    out: &mut K,
) -> Status
    requires { number < 2 ^ 63 }
    ensures { IsGiven (Status.FeedBad number reason) (text.old ++ bad_line number reason) (K.taken out.old) (K.taken out.new) result }
{
    match text.make_room(BAD_LINE, out) {
        Ok(()) => {
            put_bad_line(number, reason, text);
            give_text(
                Status::FeedBad {
                    line: number,
                    reason,
                },
                text,
                out,
            )
        }
        Err(Failed) => Status::WriteFault,
    }
}

// Reads a feed from its header to its end, or to its first bad line.
ghost use Rattle.std.specs.Prelude.{◌≡◌, ◌≢◌, ◌+◌, ◌^◌, ◌<◌, ◌≤◌, ◌++◌, ℕ, List, [], length, Option, None, IsTrue, IfSome, IfNone, MatchOption, Bool};
ghost use Rattle.link_base.specs.Shelf.{SameFiles};
ghost use Rattle.link_base.specs.Sink.{Taken};
ghost use Rattle.link_run_feed.specs.FaultCounts.{FaultCounts, CountsReads};
ghost use Rattle.link_run_feed.specs.Course.{on_feed};
ghost use Rattle.link_run_feed.specs.Feed.{ended, in_lines, begun};
ghost use Rattle.link_run_feed.specs.FeedCalls.{GoesOn, Concludes, WantsMemory, EndsLines, after_last, form_with};
ghost use Rattle.link_run_feed.specs.Given.{IsGiven};
ghost use Rattle.link_run_feed.specs.Promises.{Promises};

use crate::feed::{Feed, Reading};
use crate::reason::Reason;
use crate::status::Status;
use crate::written::{give_text, refuse};
use link_base::{Failed, NoMemory, Shelf, Sink};
use link_text::{Line, LineReader, TextBuffer};
use std::alloc::Global;

// Writes the text in hand and what is written at the end of the feed.
fn conclude<F: Feed, K: Sink>(feed: &mut F, text: &mut TextBuffer, out: &mut K) -> Status
    ensures known { EndsLines result }
    ensures reads { result ≢ Status.ReadFault }
    ensures writes { FaultCounts (result ≡ Status.WriteFault) (K.taken out.old).faults (K.taken out.new).faults }
    ensures given { (s : F.State) → F.ended feed.old s
        → IsGiven Status.Done (text.old ++ F.lines.closing s) (K.taken out.old) (K.taken out.new) result }
{
    match feed.close(text, out) {
        Ok(()) => give_text(Status::Done, text, out),
        Err(Failed) => Status::WriteFault,
    }
}

// Reads on after the last line, which has this number: there may be nothing.
fn read_after_last<F: Feed, H: Shelf, K: Sink>(
    feed: &mut F,
    number: u64,
    reader: &mut LineReader,
    text: &mut TextBuffer,
    shelf: &mut H,
    out: &mut K,
) -> Status
    requires fresh { reader.old.ended ≡ None }
    requires limit { number < 2 ^ 42 }
    ensures files { SameFiles (H.shown shelf.old) (H.shown shelf.new) }
    ensures known { EndsLines result }
    ensures reads { CountsReads Bool.true result (H.shown shelf.old).faults (H.shown shelf.new).faults }
    ensures writes { FaultCounts (result ≡ Status.WriteFault) (K.taken out.old).faults (K.taken out.new).faults }
    ensures concludes { (header : List ℕ → Option (F.State × List ℕ)) (s : F.State) → F.ended feed.old s → IsTrue (H.shown shelf.old).tells
        → Concludes (form_with header F.lines) (record { at = ended s; number = number; text = text.old })
        (reader.old.rest ++ (H.shown shelf.old).left) (H.shown shelf.old) (H.shown shelf.new) (K.taken out.old) (K.taken out.new) result }
{
    match reader.next(shelf) {
        Line::End => conclude(feed, text, out),
        Line::Failed => give_text(Status::ReadFault, text, out),
        _ => refuse(number + 1, Reason::After, text, out),
    }
}

// Takes the last line, which has this number, where it may come, and reads on after it.
fn finish<F: Feed, H: Shelf, K: Sink>(
    feed: &mut F,
    number: u64,
    reader: &mut LineReader,
    text: &mut TextBuffer,
    shelf: &mut H,
    out: &mut K,
) -> Status
    requires fresh { reader.old.ended ≡ None }
    requires limit { number < 2 ^ 42 }
    ensures files { SameFiles (H.shown shelf.old) (H.shown shelf.new) }
    ensures known { EndsLines result }
    ensures reads { CountsReads Bool.true result (H.shown shelf.old).faults (H.shown shelf.new).faults }
    ensures writes { FaultCounts (result ≡ Status.WriteFault) (K.taken out.old).faults (K.taken out.new).faults }
    ensures concludes { (header : List ℕ → Option (F.State × List ℕ)) (s : F.State) → F.stands feed.old s → IsTrue (H.shown shelf.old).tells
        → Concludes (form_with header F.lines) (after_last (F.lines.may_end s) (F.lines.ending s) number text.old)
        (reader.old.rest ++ (H.shown shelf.old).left) (H.shown shelf.old) (H.shown shelf.new) (K.taken out.old) (K.taken out.new) result }
{
    if !feed.may_end() {
        return refuse(number, Reason::Count, text, out);
    }
    match feed.end(text, out) {
        Ok(()) => read_after_last(feed, number, reader, text, shelf, out),
        Err(Failed) => Status::WriteFault,
    }
}

// Reads and answers the line after that of this number. It gives no status where the line is good.
fn read_line<F: Feed, H: Shelf, K: Sink>(
    feed: &mut F,
    number: u64,
    reader: &mut LineReader,
    text: &mut TextBuffer,
    shelf: &mut H,
    out: &mut K,
) -> Option<Status>
    requires fresh { reader.old.ended ≡ None }
    requires limit { number < 2 ^ 41 }
    ensures files { SameFiles (H.shown shelf.old) (H.shown shelf.new) }
    ensures known { IfSome result EndsLines }
    ensures reads { MatchOption result ((H.shown shelf.new).faults ≡ (H.shown shelf.old).faults)
        (λ status. CountsReads Bool.true status (H.shown shelf.old).faults (H.shown shelf.new).faults) }
    ensures writes { MatchOption result ((K.taken out.new).faults ≡ (K.taken out.old).faults)
        (λ status. FaultCounts (status ≡ Status.WriteFault) (K.taken out.old).faults (K.taken out.new).faults) }
    ensures fewer { IfNone result (F.lines_left feed.new < F.lines_left feed.old) }
    ensures still_fresh { IfNone result (reader.new.ended ≡ None) }
    ensures goes_on { IfNone result ((header : List ℕ → Option (F.State × List ℕ)) (s : F.State) → F.stands feed.old s → IsTrue (H.shown shelf.old).tells
        → (next : F.State) × F.stands feed.new next × ((H.shown shelf.new).chosen ≡ (H.shown shelf.old).chosen)
        × GoesOn (form_with header F.lines) (record { at = in_lines s; number = number; text = text.old }) (reader.old.rest ++ (H.shown shelf.old).left) (K.taken out.old)
        (in_lines next) (number + 1) text.new (reader.new.rest ++ (H.shown shelf.new).left) (K.taken out.new)) }
    ensures concludes { IfSome result (λ status. (header : List ℕ → Option (F.State × List ℕ)) (s : F.State) → F.stands feed.old s → IsTrue (H.shown shelf.old).tells
        → Concludes (form_with header F.lines) (record { at = in_lines s; number = number; text = text.old })
        (reader.old.rest ++ (H.shown shelf.old).left) (H.shown shelf.old) (H.shown shelf.new) (K.taken out.old) (K.taken out.new) status) }
{
    let line = match reader.next(shelf) {
        Line::Text(line) => line,
        Line::TooLong => return Some(refuse(number + 1, Reason::Long, text, out)),
        Line::End | Line::Unended => {
            return Some(refuse(number + 1, Reason::Unended, text, out));
        }
        Line::Failed => return Some(give_text(Status::ReadFault, text, out)),
    };
    if line == b"end".as_slice() {
        return Some(finish(feed, number + 1, reader, text, shelf, out));
    }
    match feed.read(line, text, out) {
        Ok(Reading::Good) => None,
        Ok(Reading::Bad(reason)) => Some(refuse(number + 1, reason, text, out)),
        Err(Failed) => Some(Status::WriteFault),
    }
}

// Reads lines that are at hand and settle no text, and says how many.
#[inline(always)]
fn read_ahead<F: Feed>(feed: &mut F, reader: &mut LineReader) -> u64
    ensures ended { reader.new.ended ≡ reader.old.ended }
    ensures fewer { F.lines_left feed.new + result ≤ F.lines_left feed.old }
    ensures goes_on { (header : List ℕ → Option (F.State × List ℕ)) (s : F.State) (number : ℕ) (hand left : List ℕ) (sink : Taken) → F.stands feed.old s
        → (next : F.State) × F.stands feed.new next × GoesOn (form_with header F.lines) (record { at = in_lines s; number = number; text = hand }) (reader.old.rest ++ left) sink
        (in_lines next) (number + result) hand (reader.new.rest ++ left) sink }
{
    let ahead = feed.read_ahead(reader.at_hand());
    reader.pass(ahead.octets);
    ahead.lines
}

// Reads the lines after the header, which was line 1, to the end of the feed or to its first bad line.
fn read_lines<F: Feed, H: Shelf, K: Sink>(
    feed: &mut F,
    reader: &mut LineReader,
    text: &mut TextBuffer,
    shelf: &mut H,
    out: &mut K,
) -> Status
    requires fresh { reader.old.ended ≡ None }
    requires limit { F.lines_left feed.old ≤ 2 ^ 40 }
    ensures files { SameFiles (H.shown shelf.old) (H.shown shelf.new) }
    ensures known { EndsLines result }
    ensures reads { CountsReads Bool.true result (H.shown shelf.old).faults (H.shown shelf.new).faults }
    ensures writes { FaultCounts (result ≡ Status.WriteFault) (K.taken out.old).faults (K.taken out.new).faults }
    ensures concludes { (header : List ℕ → Option (F.State × List ℕ)) (s : F.State) → F.stands feed.old s → IsTrue (H.shown shelf.old).tells
        → Concludes (form_with header F.lines) (record { at = in_lines s; number = 1; text = text.old })
        (reader.old.rest ++ (H.shown shelf.old).left) (H.shown shelf.old) (H.shown shelf.new) (K.taken out.old) (K.taken out.new) result }
{
    let mut number = 1;
    loop {
        number += read_ahead(feed, reader);
        match read_line(feed, number, reader, text, shelf, out) {
            None => number += 1,
            Some(status) => return status,
        }
    }
}

// Puts the text of the header, which was line 1, and reads the lines after it.
fn read_opened<F: Feed, H: Shelf, K: Sink>(
    feed: &mut F,
    reader: &mut LineReader,
    text: &mut TextBuffer,
    shelf: &mut H,
    out: &mut K,
) -> Status
    requires fresh { reader.old.ended ≡ None }
    requires limit { F.lines_left feed.old ≤ 2 ^ 40 }
    ensures files { SameFiles (H.shown shelf.old) (H.shown shelf.new) }
    ensures known { EndsLines result }
    ensures reads { CountsReads Bool.true result (H.shown shelf.old).faults (H.shown shelf.new).faults }
    ensures writes { FaultCounts (result ≡ Status.WriteFault) (K.taken out.old).faults (K.taken out.new).faults }
    ensures concludes { (header : List ℕ → Option (F.State × List ℕ)) (s : F.State) (settled : List ℕ) → F.opens feed.old s settled → IsTrue (H.shown shelf.old).tells
        → Concludes (form_with header F.lines) (record { at = in_lines s; number = 1; text = text.old ++ settled })
        (reader.old.rest ++ (H.shown shelf.old).left) (H.shown shelf.old) (H.shown shelf.new) (K.taken out.old) (K.taken out.new) result }
{
    match feed.begin(text, out) {
        Ok(()) => read_lines(feed, reader, text, shelf, out),
        Err(Failed) => Status::WriteFault,
    }
}

// Reads and answers the selected file from its beginning.
fn read_selected<F: Feed, H: Shelf, K: Sink>(
    given: &F::Given,
    alloc: Global,
    shelf: &mut H,
    out: &mut K,
) -> Status
    requires { F.can_open given.now }
    ensures files { SameFiles (H.shown shelf.old) (H.shown shelf.new) }
    ensures usage { result ≢ Status.Usage }
    ensures reads { CountsReads Bool.true result (H.shown shelf.old).faults (H.shown shelf.new).faults }
    ensures writes { FaultCounts (result ≡ Status.WriteFault) (K.taken out.old).faults (K.taken out.new).faults }
    ensures nothing { result ≡ Status.NoMemory → K.taken out.new ≡ K.taken out.old }
    ensures wants { IsTrue (H.shown shelf.old).tells → result ≡ Status.NoMemory → WantsMemory (H.shown shelf.old).left (H.shown shelf.old) (H.shown shelf.new) }
    ensures concludes { IsTrue (H.shown shelf.old).tells → result ≢ Status.NoMemory
        → Concludes (form_with (F.header given.now) F.lines) begun (H.shown shelf.old).left (H.shown shelf.old) (H.shown shelf.new) (K.taken out.old) (K.taken out.new) result }
{
    let mut reader = match LineReader::begin(alloc) {
        Ok(reader) => reader,
        Err(NoMemory) => return Status::NoMemory,
    };
    let mut text = TextBuffer::new();
    let line = match reader.next(shelf) {
        Line::Text(line) => line,
        Line::TooLong => return refuse(1, Reason::Long, &mut text, out),
        Line::End | Line::Unended => return refuse(1, Reason::Unended, &mut text, out),
        Line::Failed => return Status::ReadFault,
    };
    match F::open(given, alloc, line) {
        Ok(Some(mut feed)) => read_opened(&mut feed, &mut reader, &mut text, shelf, out),
        Ok(None) => refuse(1, Reason::Header, &mut text, out),
        Err(NoMemory) => Status::NoMemory,
    }
}

/// Selects the file of this name, and reads and answers it as a feed.
pub fn read_feed<F: Feed, H: Shelf, K: Sink>(
    given: &F::Given,
    alloc: Global,
    name: &str,
    shelf: &mut H,
    out: &mut K,
) -> Status
    requires { F.can_open given.now }
    ensures usage { result ≢ Status.Usage }
    ensures promises { Promises Bool.true (on_feed (form_with (F.header given.now) F.lines) name.now (H.shown shelf.old).held)
        (H.shown shelf.old) (H.shown shelf.new) (K.taken out.old) (K.taken out.new) result }
{
    match shelf.select(name) {
        Ok(()) => read_selected::<F, H, K>(given, alloc, shelf, out),
        Err(Failed) => Status::ReadFault,
    }
}

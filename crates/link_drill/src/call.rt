// The call `drill NUMBER`.
ghost use Rattle.std.specs.Prelude.{◌≡◌, ◌≢◌, ◌⊎◌, ◌<◌, ◌≤◌, ◌^◌, ◌+◌, ◌++◌, false, length};
ghost use Rattle.link_base.specs.Shelf.{Shown};
ghost use Rattle.link_run_feed.specs.Given.{IsGiven};
ghost use Rattle.link_run_feed.specs.Promises.{Promises};
ghost use Rattle.link_drill.specs.Course.{drill};
ghost use Rattle.link_drill.specs.Text.{summary_line};
ghost use Rattle.link_text.specs.Gathered.{text_capacity};

use crate::summary::{Summary, drill};
use link_base::{Failed, NoMemory, Sink};
use link_run_feed::Status;
use link_text::TextBuffer;
use std::alloc::Global;

// The line of a drill.
#[tactic(auto, unfolding(crate::specs::Text::summary_line))]
fn put_summary(number: u32, summary: &Summary, text: &mut TextBuffer)
    requires { length text.old + 256 ≤ text_capacity }
    ensures { text.new ≡ text.old ++ summary_line number summary.now }
{
    text.put(b"drill ");
    text.put_number(u64::from(number));
    text.put(b" option ");
    text.put_number(u64::from(summary.option));
    text.put(b" samples ");
    text.put_number(summary.samples);
    text.put(b" equal ");
    text.put_number(summary.equal);
    text.put(b" marked ");
    text.put_number(summary.marked);
    text.put(b" lost ");
    text.put_number(summary.lost);
    text.put(b" repeated ");
    text.put_number(summary.repeated);
    text.put(b"\n");
}

// Writes the line of a drill.
fn give_summary<K: Sink>(number: u32, summary: &Summary, out: &mut K) -> Status
    ensures { IsGiven Status.Done (summary_line number summary.now) (K.taken out.old) (K.taken out.new) result }
{
    let mut text = TextBuffer::new();
    put_summary(number, summary, &mut text);
    match text.flush(out) {
        Ok(()) => Status::Done,
        Err(Failed) => Status::WriteFault,
    }
}

/// Makes a run from a number, and says what it gives. No file is read, so what is promised holds over every shelf.
pub fn drill_number<K: Sink>(alloc: Global, number: u32, out: &mut K) -> Status
    requires { number < 2 ^ 31 }
    ensures promises { (shelf : Shown) → Promises false (drill number shelf.held) shelf shelf (K.taken out.old) (K.taken out.new) result }
    ensures usage { result ≢ Status.Usage }
{
    match drill(alloc, number) {
        Ok(summary) => give_summary(number, &summary, out),
        Err(NoMemory) => Status::NoMemory,
    }
}

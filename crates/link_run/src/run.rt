// The top call: one answer for each call of the program.
ghost use Rattle.std.specs.Prelude.{◌≡◌, ◌≢◌, ◌↔◌, ◌∷◌, [], ℕ, List, codes, map, string_bytes, IsTrue, None, false};
ghost use Rattle.link_drill.specs.Course.{drill};
ghost use Rattle.link_run_feed.specs.Promises.{Promises, IsComplete};
ghost use Rattle.link_run_plan.specs.ChecksPlan.{ChecksPlan};
ghost use Rattle.link_run_send.specs.SendsFile.{SendsFile};
ghost use Rattle.link_run_send.specs.declared.run_output.Output.TheVariants.{Packets, Symbols};
ghost use Rattle.link_run.specs.Call.{call_of, course_of, reads_feed};
ghost use Rattle.link_run.specs.CodeForm.{call_shown};
ghost use Rattle.link_run.specs.Plays.{PlaysCapture};

use crate::drill_number::DrillNumber;
use crate::form::{Form, form_of};
use link_base::{Shelf, Sink};
use link_drill::drill_number;
use link_run_delay::{management_arrives, samples_are_delayed};
use link_run_feed::Status;
use link_run_inspect::inspect;
use link_run_plan::check_plan;
use link_run_replay::replay_capture;
use link_run_send::{line_samples, send_samples};
use link_run_startup::play_events;
use std::alloc::Global;

/// Answers the words after the program's name: reads the files that they name on the shelf, and writes the text of the
/// answer to the sink.
pub fn run<H: Shelf, K: Sink>(alloc: Global, words: &[String], shelf: &mut H, out: &mut K) -> Status
    // the words alone say whether they are of a form, and words of none touch nothing
    ensures usage { (result ≡ Status.Usage) ↔ (call_of (map string_bytes words.now) ≡ None) }
    ensures untouched { call_of (map string_bytes words.now) ≡ None → (H.shown shelf.new ≡ H.shown shelf.old) × (K.taken out.new ≡ K.taken out.old) }
    ensures promises { let call = call_of (map string_bytes words.now) in
        Promises (reads_feed call) (course_of call (H.shown shelf.old).held) (H.shown shelf.old) (H.shown shelf.new) (K.taken out.old) (K.taken out.new) result }
    ensures complete { IsComplete (course_of (call_of (map string_bytes words.now)) (H.shown shelf.old).held) (H.shown shelf.old) (H.shown shelf.new) (K.taken out.old) (K.taken out.new) result }
    ensures checks { (plan : List ℕ) → map string_bytes words.now ≡ codes "check" ∷ plan ∷ [] → IsTrue (H.shown shelf.old).tells
        → ChecksPlan plan (H.shown shelf.old).held (K.taken out.old) (K.taken out.new) result }
    ensures replays { (plan capture : List ℕ) → map string_bytes words.now ≡ codes "replay" ∷ plan ∷ capture ∷ [] → IsTrue (H.shown shelf.old).tells
        → result ≡ Status.Done → PlaysCapture plan capture (H.shown shelf.old).held (K.taken out.old) (K.taken out.new) }
    ensures sends { (plan samples : List ℕ) → map string_bytes words.now ≡ codes "send" ∷ plan ∷ samples ∷ [] → IsTrue (H.shown shelf.old).tells
        → result ≡ Status.Done → SendsFile Packets plan samples (H.shown shelf.old).held (K.taken out.old) (K.taken out.new) }
    ensures lines { (plan samples : List ℕ) → map string_bytes words.now ≡ codes "line" ∷ plan ∷ samples ∷ [] → IsTrue (H.shown shelf.old).tells
        → result ≡ Status.Done → SendsFile Symbols plan samples (H.shown shelf.old).held (K.taken out.old) (K.taken out.new) }
{
    samples_are_delayed();
    management_arrives();
    run_form(alloc, form_of(words), shelf, out)
}

// A drill comes to no file, and leaves the shelf as it is.
fn drill_alone<H: Shelf, K: Sink>(
    alloc: Global,
    number: DrillNumber,
    _shelf: &mut H,
    out: &mut K,
) -> Status
    ensures untouched { H.shown _shelf.new ≡ H.shown _shelf.old }
    ensures promises { Promises false (drill number.value (H.shown _shelf.old).held) (H.shown _shelf.old) (H.shown _shelf.new) (K.taken out.old) (K.taken out.new) result }
    ensures usage { result ≢ Status.Usage }
{
    drill_number(alloc, number.value, out)
}

// Answers a form of the words.
fn run_form<H: Shelf, K: Sink>(
    alloc: Global,
    form: Option<Form<'_>>,
    shelf: &mut H,
    out: &mut K,
) -> Status
    ensures usage { (result ≡ Status.Usage) ↔ (call_shown form.entry ≡ None) }
    ensures untouched { call_shown form.entry ≡ None → (H.shown shelf.new ≡ H.shown shelf.old) × (K.taken out.new ≡ K.taken out.old) }
    ensures promises { Promises (reads_feed (call_shown form.entry)) (course_of (call_shown form.entry) (H.shown shelf.old).held) (H.shown shelf.old) (H.shown shelf.new) (K.taken out.old) (K.taken out.new) result }
{
    match form {
        None => Status::Usage,
        Some(Form::Check { plan }) => check_plan(alloc, plan, shelf, out),
        Some(Form::Startup { events }) => play_events(alloc, events, shelf, out),
        Some(Form::Inspect { line }) => inspect(alloc, line, shelf, out),
        Some(Form::Replay { plan, capture }) => replay_capture(alloc, plan, capture, shelf, out),
        Some(Form::Send { plan, samples }) => send_samples(alloc, plan, samples, shelf, out),
        Some(Form::Line { plan, samples }) => line_samples(alloc, plan, samples, shelf, out),
        Some(Form::Drill { number }) => drill_alone(alloc, number, shelf, out),
    }
}

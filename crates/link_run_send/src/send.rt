// The calls `send PLAN SAMPLES` and `line PLAN SAMPLES`.
ghost use Rattle.std.specs.Prelude.{◌≡◌, ◌≢◌, true};
ghost use Rattle.link_run_feed.specs.Promises.{Promises};
ghost use Rattle.link_run_plan.specs.OnPlan.{on_plan};
ghost use Rattle.link_run_send.specs.Send.{line, send, send_by};

use crate::run_output::Output;
use crate::sample_run::{SampleRun, Sending};
use link_base::{Shelf, Sink};
use link_run_feed::{Status, read_feed};
use link_run_plan::on_plan;
use std::alloc::Global;

/// Sends the samples of one name by the plan of another, and writes the capture of their packets.
pub fn send_samples<H: Shelf, K: Sink>(
    alloc: Global,
    plan: &str,
    samples: &str,
    shelf: &mut H,
    out: &mut K,
) -> Status
    ensures promises { Promises true (send plan.now samples.now (H.shown shelf.old).held) (H.shown shelf.old) (H.shown shelf.new) (K.taken out.old) (K.taken out.new) result }
    ensures usage { result ≢ Status.Usage }
{
    write_run(alloc, plan, samples, Output::Packets, shelf, out)
}

/// The same with their symbols on the line.
pub fn line_samples<H: Shelf, K: Sink>(
    alloc: Global,
    plan: &str,
    samples: &str,
    shelf: &mut H,
    out: &mut K,
) -> Status
    ensures promises { Promises true (line plan.now samples.now (H.shown shelf.old).held) (H.shown shelf.old) (H.shown shelf.new) (K.taken out.old) (K.taken out.new) result }
    ensures usage { result ≢ Status.Usage }
{
    write_run(alloc, plan, samples, Output::Symbols, shelf, out)
}

// Sends the samples of one name by the plan of another, and writes this of the run.
fn write_run<H: Shelf, K: Sink>(
    alloc: Global,
    plan: &str,
    samples: &str,
    output: Output,
    shelf: &mut H,
    out: &mut K,
) -> Status
    ensures promises { Promises true (on_plan plan.now (send_by output samples.now) (H.shown shelf.old).held) (H.shown shelf.old) (H.shown shelf.new) (K.taken out.old) (K.taken out.new) result }
    ensures usage { result ≢ Status.Usage }
{
    match on_plan(alloc, plan, shelf, out) {
        Ok(checked) => {
            let given = Sending { checked, output };
            read_feed::<SampleRun, H, K>(&given, alloc, samples, shelf, out)
        }
        Err(status) => status,
    }
}

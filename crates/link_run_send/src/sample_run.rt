// A run that is sent while its samples are read.
ghost use Rattle.std.specs.Prelude.{◌≡◌, ◌<◌, ◌≤◌, All, take};
ghost use Rattle.sample_bits.specs.Samples.{IsWithin};
ghost use Rattle.link_run_send.specs.ComesNext.{ComesNext, HandedTo};
ghost use Rattle.link_run_send.specs.Sent.{width_of};

use crate::due::Due;
use crate::run_output::{Output, RunOutput};
use link_run_capture::Header;
use plan_checker::Checked;

/// What a file of samples is read by.
#[derive(Drop)]
pub struct Sending {
    pub checked: Checked,
    pub output: Output,
}

/// A run that is sent while its samples are read.
#[derive(Drop)]
pub struct SampleRun {
    pub checked: Checked,
    pub header: Header,
    pub output: RunOutput,
    pub due: Due,
    /// Whether a sample has come.
    pub sampled: bool,
    /// The octets that frames of the management channels may still have, and two for each.
    pub room: usize,
    /// How many more lines there may be: more than the longest run has.
    pub lines_left: u64,
    ghost of_plan: { output.sender.plan ≡ checked },
    ghost of_run: { output.sender.frames ≡ header.run_ticks },
    ghost announced: { output.sender.announcement ≡ header.announce },
    ghost short: { header.run_ticks ≤ 1048576 },
    ghost next: { ComesNext checked header.run_ticks due },
    ghost handed: { HandedTo checked output.sender.handed due.tick due.carrier },
    ghost early: { due.tick < header.run_ticks → output.sender.tick ≤ due.tick },
    ghost within: { All (IsWithin (width_of checked due.carrier)) (take due.come due.samples) },
}

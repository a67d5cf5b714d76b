// A drill and what it gives.
ghost use Rattle.std.specs.Prelude.{◌≡◌, ◌*◌, ◌<◌, ◌^◌, All, IfOk, length};
ghost use Rattle.plan_checker.specs.WordSize.{IsLineOption, word_size};
ghost use Rattle.sample_bits.specs.Samples.{IsWithin};
ghost use Rattle.link_drill.specs.DrillPlan.{drill_plan};
ghost use Rattle.link_drill.specs.Summary.{entries_by, summary_by, summary_of};

use crate::draws::Generator;
use crate::fates::{Fate, count_lost, count_repeated, draw_fates};
use crate::playing::play;
use crate::run_plan::{PACKETS, TICKS, checked_plan};
use crate::sending::send;
use link_base::NoMemory;
use plan_checker::Checked;
use sample_bits::RawIq;
use std::alloc::Global;

/// What a drill gives.
#[derive(Clone, Copy, Debug, PartialEq, Eq)]
pub struct Summary {
    /// The line bit rate option that was drawn.
    pub option: u32,
    /// The samples that left.
    pub samples: u64,
    /// Those that left with the value with which they were handed in.
    pub equal: u64,
    /// Those that were marked.
    pub marked: u64,
    /// The packets that were lost.
    pub lost: u64,
    /// The packets that arrived twice.
    pub repeated: u64,
}

// Sends the drawn samples, plays the packets as their fates say, and counts.
fn summarize(
    alloc: Global,
    checked: &Checked,
    drawn: &[RawIq],
    fates: &[Fate],
) -> Result<Summary, NoMemory>
    requires plan { checked.now ≡ drill_plan checked.now.option }
    requires known { IsLineOption checked.now.option }
    requires drawn { length drawn.now ≡ 4 * (256 * word_size checked.now.option) }
    requires widths { All (IsWithin 15) drawn.now }
    requires fates { length fates.now ≡ 65 }
    ensures { IfOk result (λ summary. summary ≡ summary_by checked.now.option (word_size checked.now.option) drawn.now fates.now
        (entries_by checked.now (word_size checked.now.option) drawn.now fates.now)) }
{
    let packets = send(alloc, checked, drawn)?;
    let tally = play(alloc, checked, drawn, &packets, fates)?;
    Ok(Summary {
        option: checked.plan().option,
        samples: tally.samples,
        equal: tally.equal,
        marked: tally.marked,
        lost: count_lost(fates),
        repeated: count_repeated(fates),
    })
}

/// Makes a run from a number, sends it, loses, repeats and shuffles its packets, and plays them.
pub fn drill(alloc: Global, number: u32) -> Result<Summary, NoMemory>
    requires { number < 2 ^ 31 }
    ensures { IfOk result (λ summary. summary ≡ summary_of number) }
{
    let mut generator = Generator::new(number);
    let option = 1 + generator.draw() % 7;
    let checked = checked_plan(alloc, option)?;
    let drawn = generator.draw_samples(alloc, 4 * (TICKS as usize * checked.word_octets()))?;
    let fates = draw_fates(alloc, &mut generator, PACKETS)?;
    summarize(alloc, &checked, &drawn, &fates)
}

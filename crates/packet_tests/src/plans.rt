//! Plans as text.
ghost use Rattle.std.specs.Prelude.{◌≡◌, ◌<◌, length};
ghost use Rattle.plan_checker.specs.Run.{samples_due};

use carrier_plan::read;
use plan_checker::{Checked, check};
use std::alloc::Global;
use std::process::Abort;

/// Words of one octet, a carrier of a sample of 8 bits in each frame, and a flow whose windows open with the last frame of a
/// packet.
pub const PLAN: &str =
    "version = 1\noption = 1\nmode = \"bytes\"\nplayout = 2\n[[carrier]]\nmethod = 1\ns = 1\nk = 1\nm = 8\nstart = 0\nsize = 16\n[[flow]]\nid = 7\ndst = \"020000000001\"\nsrc = \"020000000002\"\ncontrol = true\ncarriers = [0]\nframes = 1\nlmin = 0\nlmax = 2\ncap = 3\np = 4\nq = 4\n";

/// The same in mode `aware`, with the carrier in two pieces.
pub const IN_PIECES: &str =
    "version = 2\noption = 1\nmode = \"aware\"\nplayout = 2\n[[carrier]]\nmethod = 1\ns = 1\nk = 1\nm = 8\npieces = [[0, 10], [100, 6]]\n[[flow]]\nid = 7\ndst = \"020000000001\"\nsrc = \"020000000002\"\ncontrol = true\ncarriers = [0]\nframes = 1\nlmin = 0\nlmax = 2\ncap = 3\np = 4\nq = 4\n";

/// A plan that meets the rules, whose first carrier hands in a sample at tick 0.
pub fn checked(rt: &impl Abort, alloc: Global, text: &str) -> Checked
    ensures carriers { 0 < length result.carriers }
    ensures flows { 0 < length result.flows }
    ensures due { samples_due result 0 0 ≡ 1 }
{
    let plan = read(alloc, text.as_bytes()).expect(rt, "a plan");
    let checked = check(plan).expect(rt, "a plan that meets the rules");
    assert!(rt; checked.plan().carriers.len() > 0);
    assert!(rt; checked.plan().flows.len() > 0);
    assert!(rt; checked.due(0, 0) == 1);
    checked
}

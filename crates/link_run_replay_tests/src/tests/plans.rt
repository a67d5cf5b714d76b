// Captures by plans of each line option, mapping method, block length, mode and packet size.
use super::*;

/// Samples in blocks of two basic frames.
const BLOCKS: Change<'static> = ("k = 1\nm = 8", "k = 2\nm = 15");

/// The packets of (1, -1) and (16383, -16384), each in the containers of two basic frames, but for the second of the first.
const PACKET_OF_A_BLOCK_MISSED: [Record<'static>; 5] = [
    (0, "020000000001020000000002fc3d0207001000000000bc0000"),
    (1, "020000000001020000000002fc3d0207001000000001000000"),
    (2, "020000000001020000000002fc3d020700100000000201abaa"),
    (4, "020000000001020000000002fc3d0207001000010000005555"),
    (5, "020000000001020000000002fc3d0207001000010001005525"),
];

/// Three samples in a block of two basic frames.
const THREE_IN_A_BLOCK: Change<'static> = (
    "s = 1\nk = 1\nm = 8\nstart = 0\nsize = 16",
    "s = 3\nk = 2\nm = 4\nstart = 0\nsize = 12",
);

/// The method that begins a block with stuffing containers.
const COMPATIBLE: Change<'static> = (
    "method = 1\ns = 1\nk = 1\nm = 8\nstart = 0\nsize = 16",
    "method = 3\ns = 35\nk = 12\nm = 15\nstart = 0\nsize = 90",
);

/// Two carriers of eight samples in each basic frame of option 3, and four frames in a packet.
pub(super) const WIDE: [Change<'static>; 4] = [
    ("option = 1", "option = 3"),
    ("playout = 2", "playout = 33"),
    (
        "s = 1\nk = 1\nm = 8\nstart = 0\nsize = 16",
        "s = 8\nk = 1\nm = 15\nstart = 0\nsize = 240\n[[carrier]]\nmethod = 1\ns = 8\nk = 1\nm = 15\nstart = 240\nsize = 240",
    ),
    (
        "carriers = [0]\nframes = 1\nlmin = 0\nlmax = 2\ncap = 3\np = 4\nq = 4",
        "carriers = [0, 1]\nframes = 4\nlmin = 10\nlmax = 30\ncap = 6\np = 256\nq = 256",
    ),
];

/// A packet of such a plan, whose samples are zeros.
const WIDE_PACKET: &str =
    "020000000001020000000002fc3d0207010000000000bc50505000000000000000000000000000000000000000000000000000000000000000000000000000000000000000000000000000000000000000000000000000000000000000000000000000000000000000000000000000000000000000000000000000000000000000000000000000000000000000000000000000000000010000000000000000000000000000000000000000000000000000000000000000000000000000000000000000000000000000000000000000000000000000000000000000000000000000000000000000000000000000000000000000";

/// Packets of the carriers alone: two carriers, each in a flow of its own.
const AWARE: [Change<'static>; 3] = [
    ("mode = \"bytes\"", "mode = \"aware\""),
    (
        "[[flow]]",
        "[[carrier]]\nmethod = 1\ns = 1\nk = 1\nm = 8\nstart = 16\nsize = 16\n[[flow]]",
    ),
    (
        "q = 4\n",
        "q = 4\n[[flow]]\nid = 8\ndst = \"020000000001\"\nsrc = \"020000000002\"\ncontrol = false\ncarriers = [1]\nframes = 1\nlmin = 0\nlmax = 2\ncap = 3\np = 4\nq = 4\n",
    ),
];

/// Packets of 8B/10B symbols. The third symbol of packet 1 is none of the code, and carries a bit of sample 0.
const TUNNEL: [Record<'static>; 3] = [
    (
        0,
        "020000000001020000000002fc3d02070014000000007c196db4d1461b6db4d1461b6db4d1461b6db4d1",
    ),
    (
        1,
        "020000000001020000000002fc3d0207001400000001464f0580d1461b6db4d1461b6db4d1461b6db4d1",
    ),
    (
        2,
        "020000000001020000000002fc3d0207001400000002511b6db4d1461b6db4d1461b6db4d1461b6db4d1",
    ),
];

const ROWS_BY_PLAN: [Row<'static>; 9] = [
    (
        &[("option = 1", "option = 2")],
        1,
        &[(1, "020000000001020000000002fc3d02070020000000010000b3aa")],
        "3 0 0 5 -3\nflow 0 taken 1 missed 1\nend\n",
    ),
    (
        &[BLOCKS],
        4,
        &[
            (2, "020000000001020000000002fc3d020700100000000201abaa"),
            (3, "020000000001020000000002fc3d020700100000000300aa2a"),
        ],
        "5 0 0 1 -1\n7 0 1 -\nflow 0 taken 2 missed 4\nend\n",
    ),
    (
        &[BLOCKS],
        4,
        &PACKET_OF_A_BLOCK_MISSED,
        "5 0 0 -\n7 0 1 16383 -16384\nflow 0 taken 5 missed 1\nend\n",
    ),
    (
        &[THREE_IN_A_BLOCK],
        2,
        &[(2, "020000000001020000000002fc3d0207001000000002010102")],
        "4 0 0 1 0\n5 0 1 -\n5 0 2 -\nflow 0 taken 1 missed 3\nend\n",
    ),
    (&[COMPATIBLE], 0, &[], "flow 0 taken 0 missed 12\nend\n"),
    (
        &WIDE,
        1,
        &[(33, WIDE_PACKET)],
        "34 0 0 0 0\n34 0 1 0 0\n34 0 2 0 0\n34 0 3 0 0\n34 0 4 0 0\n34 0 5 0 0\n34 0 6 0 0\n34 0 7 0 0\n34 1 0 0 0\n34 1 1 0 0\n34 1 2 0 0\n34 1 3 0 0\n34 1 4 0 0\n34 1 5 0 0\n34 1 6 0 0\n34 1 7 0 0\nflow 0 taken 1 missed 0\nend\n",
    ),
    (
        &WIDE,
        1,
        &[(34, WIDE_PACKET)],
        "34 0 0 -\n34 0 1 -\n34 0 2 -\n34 0 3 -\n34 0 4 -\n34 0 5 -\n34 0 6 -\n34 0 7 -\n34 1 0 -\n34 1 1 -\n34 1 2 -\n34 1 3 -\n34 1 4 -\n34 1 5 -\n34 1 6 -\n34 1 7 -\nflow 0 taken 0 missed 1\nend\n",
    ),
    (
        &AWARE,
        1,
        &[(1, "020000000001020000000002fc3d030700030000000100b3aa")],
        "3 0 0 5 -3\n3 1 0 -\nflow 0 taken 1 missed 1\nflow 1 taken 0 missed 2\nend\n",
    ),
    (
        &[("mode = \"bytes\"", "mode = \"tunnel\"")],
        2,
        &TUNNEL,
        "3 0 0 -\n4 0 1 0 0\nflow 0 taken 3 missed 0\nend\n",
    ),
];

#[test]
fn captures_are_played_by_plans_of_each_kind(rt: HostRuntime) -> Result<(), Fail> {
    for row in &ROWS_BY_PLAN {
        compare_row(&rt, rt.alloc(), row)?;
    }
    Ok(())
}

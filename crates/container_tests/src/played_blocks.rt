//! The samples that leave with the frames of a block.
ghost use Rattle.std.specs.Prelude.{◌≡◌, ◌+◌, ◌≤◌, ◌<◌, All, length};
ghost use Rattle.plan_checker.specs.Container.{pieces_size};
ghost use Rattle.sample_bits.specs.SampleRate.{IsSampleRate, IsSampleWidth};
ghost use Rattle.link_receiver_blocks.specs.Containers.{container_bits};

use carrier_plan::{Carrier, Method, Piece, PieceList};
use link_base::NoMemory;
use link_receiver_blocks::{BlockInHand, Leaving, Mapping};
use sample_bits::RawIq;
use std::alloc::Global;
use std::process::Abort;
use std::test::Fail;

// A frame that is played, or none where it was missed, the number of the first sample that leaves, how many leave, and the
// first two of them, none where they are marked or there are not so many.
type Play = (Option<[u8; 7]>, u32, u32, [Option<RawIq>; 2]);

// A sample that left, or none where it is marked or was not read.
fn sample_or_none(leaving: Leaving, samples: &[RawIq], i: u32) -> Option<RawIq>
    requires few { i < 32 }
    requires room { length samples.now ≡ 32 }
{
    if i < leaving.count && leaving.marks >> i & 1 == 0 {
        Some(samples[i as usize])
    } else {
        None
    }
}

fn play_frame(
    block: &mut BlockInHand,
    frame: Option<[u8; 7]>,
    route: &[Piece],
    samples: &mut [RawIq],
) -> Leaving
    requires route { pieces_size route.now ≡ container_bits block.old.mapping }
    requires within { All (λ p. p.start + p.size ≤ 56) route.now }
    requires room { length samples.old ≡ 32 }
    ensures { block.new.mapping ≡ block.old.mapping }
{
    match frame {
        Some(octets) => block.play(Some(octets.as_slice()), route, samples),
        None => block.play(None, route, samples),
    }
}

fn check_plays(
    rt: &impl Abort,
    alloc: Global,
    mapping: Mapping,
    route: &[Piece],
    plays: &[Play],
) -> Result<(), NoMemory>
    requires rate { IsSampleRate mapping.s mapping.k }
    requires width { IsSampleWidth mapping.m }
    requires route { pieces_size route.now ≡ container_bits mapping }
    requires within { All (λ p. p.start + p.size ≤ 56) route.now }
{
    let Mapping { method, s, k, m } = mapping;
    let carrier = Carrier {
        method,
        s,
        k,
        m,
        pieces: PieceList::new(alloc),
    };
    let mut block = BlockInHand::begin(alloc, &carrier)?;
    for &(frame, first, count, expected) in plays {
        let mut samples = [RawIq { i: 0, q: 0 }; 32];
        let leaving = play_frame(&mut block, frame, route, &mut samples);
        assert_eq!(rt; leaving.first, first);
        assert_eq!(rt; leaving.count, count);
        assert_eq!(rt; sample_or_none(leaving, &samples, 0), expected[0]);
        assert_eq!(rt; sample_or_none(leaving, &samples, 1), expected[1]);
    }
    Ok(())
}

const ONE_PIECE: [Piece; 1] = [Piece { start: 8, size: 16 }];

const SAMPLE: Option<RawIq> = Some(RawIq { i: 1, q: -1 });

const FULL: Option<RawIq> = Some(RawIq {
    i: 16_383,
    q: -16_384,
});

// The 30 bits of a sample in the containers of two frames.
const OVER_TWO_FRAMES: [Play; 8] = [
    (Some([0x01, 0xab, 0xaa, 0, 0, 0, 0]), 0, 0, [None, None]),
    (Some([0x00, 0xaa, 0x2a, 0, 0, 0, 0]), 0, 1, [SAMPLE, None]),
    (Some([0x01, 0xab, 0xaa, 0, 0, 0, 0]), 0, 0, [None, None]),
    (None, 0, 1, [None, None]),
    (None, 0, 0, [None, None]),
    (Some([0x00, 0xaa, 0x2a, 0, 0, 0, 0]), 0, 1, [None, None]),
    (Some([0x01, 0xab, 0xaa, 0, 0, 0, 0]), 0, 0, [None, None]),
    (Some([0x00, 0xaa, 0x2a, 0, 0, 0, 0]), 0, 1, [SAMPLE, None]),
];

// Three samples of eight bits in the containers of two frames: the second stands in both.
const THREE_OVER_TWO: [Play; 4] = [
    (
        Some([0x01, 0x01, 0x02, 0, 0, 0, 0]),
        0,
        1,
        [Some(RawIq { i: 1, q: 0 }), None],
    ),
    (None, 1, 2, [None, None]),
    (None, 0, 1, [None, None]),
    (
        Some([0x01, 0x30, 0x00, 0, 0, 0, 0]),
        1,
        2,
        [None, Some(RawIq { i: 1, q: 1 })],
    ),
];

// Two samples over five frames by method 3: in the third and the last.
const TWO_OVER_FIVE: [Play; 10] = [
    (None, 0, 0, [None, None]),
    (Some([0; 7]), 0, 0, [None, None]),
    (
        Some([0x01, 0xab, 0xaa, 0xaa, 0x2a, 0, 0]),
        0,
        1,
        [SAMPLE, None],
    ),
    (None, 1, 0, [None, None]),
    (
        Some([0x01, 0x55, 0x55, 0x55, 0x25, 0, 0]),
        1,
        1,
        [FULL, None],
    ),
    (Some([0; 7]), 0, 0, [None, None]),
    (Some([0; 7]), 0, 0, [None, None]),
    (None, 0, 1, [None, None]),
    (Some([0; 7]), 1, 0, [None, None]),
    (
        Some([0x01, 0x55, 0x55, 0x55, 0x25, 0, 0]),
        1,
        1,
        [FULL, None],
    ),
];

#[test]
#[tactic(auto, using(crate::proofs::Rates::usual_rates))]
fn samples_leave_with_the_last_frame_that_carries_them(rt: HostRuntime) -> Result<(), Fail> {
    let wide = Mapping {
        method: Method::Sample,
        s: 1,
        k: 2,
        m: 15,
    };
    check_plays(&rt, rt.alloc(), wide, &ONE_PIECE, &OVER_TWO_FRAMES)?;
    let narrow = Mapping { s: 3, m: 4, ..wide };
    let twelve_bits = [Piece { start: 8, size: 12 }];
    check_plays(&rt, rt.alloc(), narrow, &twelve_bits, &THREE_OVER_TWO)?;
    let compatible = Mapping {
        method: Method::Compatible,
        s: 2,
        k: 5,
        m: 15,
    };
    let a_sample = [Piece { start: 8, size: 30 }];
    check_plays(&rt, rt.alloc(), compatible, &a_sample, &TWO_OVER_FIVE)?;
    Ok(())
}

// The 16 bits of a sample, in one piece and in pieces of 6 and 10 bits.
#[test]
#[tactic(auto, using(crate::proofs::Rates::usual_rates))]
fn a_block_of_one_frame_is_read_from_its_pieces(rt: HostRuntime) -> Result<(), Fail> {
    let mapping = Mapping {
        method: Method::Sample,
        s: 1,
        k: 1,
        m: 8,
    };
    let sample = Some(RawIq { i: 5, q: -3 });
    let whole = [
        (Some([0x00, 0xb3, 0xaa, 0, 0, 0, 0]), 0, 1, [sample, None]),
        (None, 0, 1, [None, None]),
        (Some([0x00, 0xb3, 0xaa, 0, 0, 0, 0]), 0, 1, [sample, None]),
    ];
    check_plays(&rt, rt.alloc(), mapping, &ONE_PIECE, &whole)?;
    let two_pieces = [
        Piece { start: 20, size: 6 },
        Piece {
            start: 40,
            size: 10,
        },
    ];
    let parts = [
        (
            Some([0, 0, 0x30, 0x03, 0, 0xaa, 0x02]),
            0,
            1,
            [sample, None],
        ),
        (None, 0, 1, [None, None]),
        (
            Some([0, 0, 0x30, 0x03, 0, 0xaa, 0x02]),
            0,
            1,
            [sample, None],
        ),
    ];
    check_plays(&rt, rt.alloc(), mapping, &two_pieces, &parts)?;
    Ok(())
}

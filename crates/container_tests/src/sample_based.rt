//! Method 1: blocks of samples in the containers of their frames.
ghost use Rattle.std.specs.Prelude.{◌≡◌, ◌<◌, ◌≤◌};

use axc_sample_map::{pack_frame, pack_raw, size, span, unpack, unpack_raw, unpack_run};
use sample_bits::{Iq, RawIq};
use std::test::Fail;

#[test]
#[tactic(auto, using(crate::proofs::Rates::usual_rates))]
fn containers_hold_a_block_with_stuffing_bits_last(rt: HostRuntime) {
    let sizes = [
        size(15, 4, 1),
        size(15, 1, 2),
        size(4, 3, 2),
        size(15, 35, 12),
    ];
    assert_eq!(&rt; sizes, [120, 16, 12, 88]);
    let spans = [span(15, 35, 12, 2), span(15, 35, 12, 34), span(4, 3, 2, 0)];
    assert_eq!(&rt; spans, [(0, 1), (11, 11), (0, 0)]);
}

// The 30 bits of (1, -1) in two containers of 16 bits. What stands around them stays.
#[test]
#[tactic(auto, using(crate::proofs::Rates::usual_rates))]
fn a_sample_spans_two_frames(rt: HostRuntime) -> Result<(), Fail> {
    let sample = Iq::<15>::narrow(RawIq { i: 1, q: -1 }).ok_or("out of range")?;
    let mut frame = [0x01, 0xff, 0xff, 0x80];
    pack_frame(&[sample], 1, 2, 0, &mut frame, 8);
    assert_eq!(&rt; frame, [0x01, 0xab, 0xaa, 0x80]);
    pack_raw(&[sample.wide()], 15, 1, 2, 1, &mut frame, 8);
    assert_eq!(&rt; frame, [0x01, 0xaa, 0x2a, 0x80]);
    assert_eq!(&rt; unpack::<15>(&[0xab, 0xaa, 0xaa, 0x2a], 1, 2, 0), sample);
    Ok(())
}

// The samples of a block of two containers of 12 bits, which begin at bit 4.
#[test]
#[tactic(auto, using(crate::proofs::Rates::usual_rates))]
fn a_run_is_read_where_it_stands(rt: HostRuntime) {
    let mut samples = [RawIq { i: 0, q: 0 }; 2];
    unpack_run::<4>(&[0x1f, 0x50, 0x30, 0xf0], 4, 3, 2, 1, &mut samples);
    assert_eq!(&rt; samples, [RawIq { i: 3, q: 0 }, RawIq { i: 1, q: 1 }]);
    unpack_raw(&[0x1f, 0x50, 0x30, 0xf0], 4, 4, 3, 2, 0, &mut samples);
    assert_eq!(&rt; samples, [RawIq { i: 1, q: 0 }, RawIq { i: 3, q: 0 }]);
}

// The four samples of a frame, from bit 4 on. What stands around them stays.
#[test]
#[tactic(auto, using(crate::proofs::Rates::usual_rates))]
fn a_block_of_one_frame_is_a_run_of_samples(rt: HostRuntime) {
    let block = [
        RawIq { i: 1, q: 0 },
        RawIq { i: 3, q: 0 },
        RawIq { i: 1, q: 1 },
        RawIq { i: 0, q: 1 },
    ];
    let mut frame = [0x0f, 0xff, 0xff, 0xff, 0xff];
    pack_raw(&block, 4, 4, 1, 0, &mut frame, 4);
    assert_eq!(&rt; frame, [0x1f, 0x50, 0x30, 0x20, 0xf0]);
}

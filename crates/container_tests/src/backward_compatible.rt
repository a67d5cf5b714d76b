//! Method 3: blocks of samples in containers of their own.
ghost use Rattle.std.specs.Prelude.{◌≡◌, ◌<◌, ◌≤◌};

use axc_compatible_map::{
    containers, is_stuffing, pack_frame, pack_raw, size, span, unpack, unpack_raw, unpack_run,
};
use sample_bits::{Iq, RawIq};
use std::test::Fail;

#[test]
#[tactic(auto, using(crate::proofs::Rates::usual_rates))]
fn stuffing_containers_are_spread_over_the_block(rt: HostRuntime) {
    assert_eq!(&rt; (containers(35, 12), size(15, 35, 12)), (3, 90));
    for u in 0..40 {
        let stuffing = (is_stuffing(u, 35, 12), is_stuffing(u, 2, 5));
        assert_eq!(&rt; stuffing, (u == 0, u == 0 || u == 1 || u == 3));
    }
    assert_eq!(&rt; [span(15, 2, 5, 0), span(15, 2, 5, 1)], [(2, 2), (4, 4)]);
}

// The two samples of five frames stand in the third and the last. What stands around them stays.
#[test]
#[tactic(auto, using(crate::proofs::Rates::usual_rates))]
fn each_sample_has_a_container_of_its_own(rt: HostRuntime) -> Result<(), Fail> {
    let first = Iq::<15>::narrow(RawIq { i: 1, q: -1 }).ok_or("out of range")?;
    let last = Iq::<15>::narrow(RawIq {
        i: 16383,
        q: -16384,
    })
    .ok_or("out of range")?;
    let mut frame = [0x01, 0xff, 0xff, 0xff, 0xff];
    pack_frame(&[first, last], 2, 5, 1, &mut frame, 8);
    assert_eq!(&rt; frame, [0x01, 0x00, 0x00, 0x00, 0xc0]);
    pack_frame(&[first, last], 2, 5, 2, &mut frame, 8);
    assert_eq!(&rt; frame, [0x01, 0xab, 0xaa, 0xaa, 0xea]);
    pack_raw(&[first.wide(), last.wide()], 15, 2, 5, 4, &mut frame, 8);
    assert_eq!(&rt; frame, [0x01, 0x55, 0x55, 0x55, 0xe5]);
    Ok(())
}

// Two samples of four bits in three frames: the first container is stuffing.
#[test]
#[tactic(auto, using(crate::proofs::Rates::usual_rates))]
fn a_run_is_read_where_it_stands(rt: HostRuntime) -> Result<(), Fail> {
    let sample = Iq::<4>::narrow(RawIq { i: 3, q: 0 }).ok_or("out of range")?;
    assert_eq!(&rt; unpack::<4>(&[0x00, 0x05, 0x03], 2, 3, 0), sample);
    let mut samples = [RawIq { i: 0, q: 0 }; 2];
    unpack_run::<4>(&[0x0f, 0x50, 0x30, 0xf0], 4, 2, 3, 0, &mut samples);
    assert_eq!(&rt; samples, [RawIq { i: 3, q: 0 }, RawIq { i: 1, q: 1 }]);
    unpack_raw(&[0x0f, 0x50, 0x30, 0xf0], 4, 4, 2, 3, 1, &mut samples[..1]);
    assert_eq!(&rt; samples, [RawIq { i: 1, q: 1 }, RawIq { i: 1, q: 1 }]);
    Ok(())
}

// The four samples of a frame, from bit 4 on. What stands around them stays.
#[test]
#[tactic(auto, using(crate::proofs::Rates::usual_rates))]
fn a_block_of_one_frame_has_no_stuffing(rt: HostRuntime) {
    let block = [
        RawIq { i: 1, q: 0 },
        RawIq { i: 3, q: 0 },
        RawIq { i: 1, q: 1 },
        RawIq { i: 0, q: 1 },
    ];
    let mut frame = [0x0f, 0xff, 0xff, 0xff, 0xff];
    pack_raw(&block, 4, 4, 1, 0, &mut frame, 4);
    assert_eq!(&rt; frame, [0x1f, 0x50, 0x30, 0x20, 0xf0]);
    let mut last = [RawIq { i: 0, q: 0 }];
    unpack_raw(&frame, 4, 4, 4, 1, 3, &mut last);
    assert_eq!(&rt; last, [RawIq { i: 0, q: 1 }]);
}

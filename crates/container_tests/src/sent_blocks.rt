//! What is sent before the first block.
ghost use Rattle.std.specs.Prelude.{◌≡◌, ◌<◌, ◌≤◌};

use carrier_plan::{Carrier, Method, Piece, PieceList};
use link_sender_blocks::SamplesInHand;
use sample_bits::RawIq;
use std::alloc::Global;
use std::test::Fail;

// A sample of 15 bits in two frames, by method 1, with a container in one piece and in two. Both frames of the first block are
// silent, and the bits in no piece stay.
#[test]
#[tactic(auto, using(crate::proofs::Rates::usual_rates))]
fn silence_is_sent_before_the_first_block(rt: HostRuntime) -> Result<(), Fail> {
    let mut pieces = PieceList::new(rt.alloc());
    pieces.push(Piece { start: 0, size: 16 })?;
    let carrier = Carrier {
        method: Method::Sample,
        s: 1,
        k: 2,
        m: 15,
        pieces,
    };
    let mut hand = SamplesInHand::begin(rt.alloc(), &carrier)?;
    hand.take(&[RawIq { i: 1, q: -1 }]);
    let one = [Piece { start: 0, size: 16 }];
    let two = [Piece { start: 8, size: 10 }, Piece { start: 0, size: 6 }];
    let mut frame = [0xff, 0xff, 0xff, 0x80];
    hand.send(&one, &mut frame);
    hand.send(&two, &mut frame);
    assert_eq!(&rt; frame, [0x00, 0x00, 0xfc, 0x80]);
    Ok(())
}

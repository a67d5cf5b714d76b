// The containers of a flow's carriers, taken out of basic frames and put into them.
ghost use Rattle.std.specs.Prelude.{◌≡◌, ◌+◌, ◌*◌, ◌<◌, ◌≤◌, length, All, AllPairs, Contains, flat_map, if◌then◌else◌};
ghost use Rattle.plan_checker.specs.Container.{SharesNoBit, pieces_size};
ghost use Rattle.plan_checker.specs.Flows.{bits_of_carriers};
ghost use Rattle.plan_checker.specs.Rules.{IsGood};
ghost use Rattle.plan_checker.specs.WordSize.{word_size};
ghost use Rattle.roe_mappers.specs.CarriedBits.{bits_of_piece, carried_bits};
ghost use Rattle.roe_mappers.specs.MovedBits.{AreContainers, GivesBits, TakesBits};

use basic_frame::Frame;
use carrier_plan::{Flow, Piece, Plan};
use sample_bits::clear_bits;

// The octets of the control word in a flow's parts, where a word of the frame has so many.
pub(crate) fn control_octets(flow: &Flow, word: usize) -> usize
    ensures value { result ≡ (if flow.now.control then word else 0) }
    ensures within { result ≤ word }
{
    if flow.control { word } else { 0 }
}

// Fills octets with the containers of the flow's carriers in a frame, and with zeros after them.
pub(crate) fn fill_containers<const Y: usize>(
    plan: &Plan,
    flow: &Flow,
    frame: &Frame<Y>,
    octets: &mut [u8],
)
    requires good { IsGood plan.now }
    requires flow { Contains plan.now.flows flow.now }
    requires word { word_size plan.now.option ≡ Y }
    requires room { bits_of_carriers plan.now flow.now.carriers ≤ 8 * length octets.old }
    requires short { length octets.old ≤ 1_492 }
    ensures { AreContainers plan.now flow.now Y frame.now octets.new }
{
    let end = take_containers(plan, flow, frame, octets);
    clear_bits(octets, end, 8 * octets.len());
}

// Copies the containers of the flow's carriers to the front of the octets, and says where their bits end.
fn take_containers<const Y: usize>(
    plan: &Plan,
    flow: &Flow,
    frame: &Frame<Y>,
    octets: &mut [u8],
) -> usize
    requires good { IsGood plan.now }
    requires flow { Contains plan.now.flows flow.now }
    requires word { word_size plan.now.option ≡ Y }
    requires room { bits_of_carriers plan.now flow.now.carriers ≤ 8 * length octets.old }
    requires short { length octets.old ≤ 1_492 }
    ensures end { result ≡ length (carried_bits plan.now flow.now) }
    ensures taken { TakesBits Y frame.now (carried_bits plan.now flow.now) octets.old octets.new 0 }
{
    let mut end = 0;
    for number in flow.carriers.as_slice() {
        let carrier = plan.carriers.at(*number as usize);
        end = take_container(frame, carrier.pieces.as_slice(), octets, end);
    }
    end
}

// Copies a container to the bits of the octets from `at` on, and says where they end.
fn take_container<const Y: usize>(
    frame: &Frame<Y>,
    pieces: &[Piece],
    octets: &mut [u8],
    at: usize,
) -> usize
    requires within { All (λ p. p.start + p.size ≤ 120 * Y) pieces.now }
    requires room { at + pieces_size pieces.now ≤ 8 * length octets.old }
    requires short { length octets.old ≤ 1_492 }
    ensures end { result ≡ at + length (flat_map bits_of_piece pieces.now) }
    ensures taken { TakesBits Y frame.now (flat_map bits_of_piece pieces.now) octets.old octets.new at }
{
    let mut end = at;
    for piece in pieces {
        let size = piece.size as usize;
        frame.get_bits(piece.start as usize, size, octets, end);
        end += size;
    }
    end
}

// Puts the containers at the front of the octets into a frame.
pub(crate) fn put_containers<const Y: usize>(
    plan: &Plan,
    flow: &Flow,
    octets: &[u8],
    frame: &mut Frame<Y>,
)
    requires good { IsGood plan.now }
    requires flow { Contains plan.now.flows flow.now }
    requires word { word_size plan.now.option ≡ Y }
    requires source { bits_of_carriers plan.now flow.now.carriers ≤ 8 * length octets.now }
    requires short { length octets.now ≤ 1_492 }
    ensures { GivesBits Y octets.now 0 (carried_bits plan.now flow.now) frame.old frame.new }
{
    let mut from = 0;
    for number in flow.carriers.as_slice() {
        let carrier = plan.carriers.at(*number as usize);
        from = put_container(octets, from, carrier.pieces.as_slice(), frame);
    }
}

// Puts a container, whose bits stand in the octets from `from` on, into a frame, and says where they end.
fn put_container<const Y: usize>(
    octets: &[u8],
    from: usize,
    pieces: &[Piece],
    frame: &mut Frame<Y>,
) -> usize
    requires within { All (λ p. p.start + p.size ≤ 120 * Y) pieces.now }
    requires apart { AllPairs SharesNoBit pieces.now }
    requires source { from + pieces_size pieces.now ≤ 8 * length octets.now }
    requires short { length octets.now ≤ 1_492 }
    ensures end { result ≡ from + length (flat_map bits_of_piece pieces.now) }
    ensures given { GivesBits Y octets.now from (flat_map bits_of_piece pieces.now) frame.old frame.new }
{
    let mut end = from;
    for piece in pieces {
        let size = piece.size as usize;
        frame.put_bits(piece.start as usize, octets, end, size);
        end += size;
    }
    end
}

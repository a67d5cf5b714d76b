// The containers of a block, gathered one after another.
ghost use Rattle.std.specs.Prelude.{◌≡◌, ℕ, ◌+◌, ◌*◌, ◌^◌, ◌<◌, ◌≤◌, [], ◌∷◌, ◌++◌, All, length};
ghost use Rattle.std.specs.Option.{ForSome, option_copied};
ghost use Rattle.link_base.specs.Bits.{bit_of};
ghost use Rattle.plan_checker.specs.Container.{pieces_size};
ghost use Rattle.plan_checker.specs.Place.{iq_bit};
ghost use Rattle.link_receiver_blocks.specs.Containers.{container_played};
ghost use Rattle.link_receiver_blocks.specs.Held.{containers_held};

use carrier_plan::Piece;
use sample_bits::copy_bits;

/// Takes the container of frame `phase` of a block, which stands in the pieces of a route, and returns the mask of the
/// frames that were missed with the one of this frame. The containers of the block, of `size` bits each, stand one after
/// another from bit 0 of the octets on. That of a frame that was missed may have any bits.
pub fn take_container(
    frame: Option<&[u8]>,
    route: &[Piece],
    size: u32,
    phase: u32,
    block: &mut [u8],
    missed: u128,
) -> u128
    requires route { pieces_size route.now ≡ size }
    requires within { ForSome frame (λ octets. All (λ p. p.start + p.size ≤ 8 * length octets.now) route.now) }
    requires small { size ≤ 1_280 }
    requires short { phase < 96 }
    requires room { phase * size + size ≤ 8 * length block.old }
    requires played { missed < 2 ^ phase }
    ensures containers { containers_held size block.new result (phase + 1)
        ≡ containers_held size block.old missed phase
        ++ container_played (option_copied frame.entry) route.now ∷ [] }
    ensures played { result < 2 ^ (phase + 1) }
{
    match frame {
        Some(octets) => {
            gather(octets, route, block, phase as usize * size as usize);
            missed
        }
        None => missed | 1 << phase,
    }
}

// Copies the bits of the pieces, one piece after another, to bit `at` of the block and those behind it.
fn gather(octets: &[u8], route: &[Piece], block: &mut [u8], at: usize)
    requires within { All (λ p. p.start + p.size ≤ 8 * length octets.now) route.now }
    requires room { at + pieces_size route.now ≤ 8 * length block.old }
    requires small { at + pieces_size route.now < 2 ^ 32 }
    ensures copied { (b : ℕ) → b < pieces_size route.now
        → bit_of block.new (at + b) ≡ bit_of octets.now (iq_bit route.now b) }
    ensures before { (x : ℕ) → x < at → bit_of block.new x ≡ bit_of block.old x }
    ensures after { (x : ℕ) → at + pieces_size route.now ≤ x → bit_of block.new x ≡ bit_of block.old x }
{
    let mut next = at;
    for piece in route {
        let size = piece.size as usize;
        copy_bits(octets, piece.start as usize, block, next, size);
        next += size;
    }
}

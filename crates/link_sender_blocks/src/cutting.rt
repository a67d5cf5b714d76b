// A container, cut into the pieces in which it stands.
ghost use Rattle.std.specs.Prelude.{◌≡◌, ℕ, ◌+◌, ◌*◌, ◌^◌, ◌<◌, ◌≤◌, All, AllPairs, length};
ghost use Rattle.plan_checker.specs.Container.{SharesNoBit, pieces_size};
ghost use Rattle.link_sender_blocks.specs.Containers.{PutsPieces};

use carrier_plan::Piece;
use sample_bits::copy_bits;

/// Copies a container, which stands from bit 0 of its octets on, into its pieces of the IQ data block.
pub fn cut(container: &[u8], pieces: &[Piece], octets: &mut [u8])
    requires source { pieces_size pieces.now ≤ 8 * length container.now }
    requires small { pieces_size pieces.now < 2 ^ 32 }
    requires within { All (λ p. p.start + p.size ≤ 8 * length octets.old) pieces.now }
    requires apart { AllPairs SharesNoBit pieces.now }
    ensures { PutsPieces container.now pieces.now octets.old octets.new }
{
    let mut next = 0;
    for piece in pieces {
        let size = piece.size as usize;
        copy_bits(container, next, octets, piece.start as usize, size);
        next += size;
    }
}

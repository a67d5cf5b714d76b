// The samples of a block out of its containers, with their marks.
ghost use Rattle.std.specs.Prelude.{◌≡◌, ℕ, ◌+◌, ◌*◌, ◌^◌, ◌<◌, ◌≤◌, [], ◌∷◌, length};
ghost use Rattle.std.specs.Int.{bit_at};
ghost use Rattle.std.specs.List.{HoldsAt};
ghost use Rattle.std.specs.Option.{ForSome, option_copied};
ghost use Rattle.sample_bits.specs.Blocks.{sample_in_block};
ghost use Rattle.sample_bits.specs.SampleRate.{IsSampleRate, IsSampleWidth};
ghost use Rattle.link_receiver_blocks.specs.Containers.{container_bits, container_played, place_of_bit, sample_of_block, samples_left, unless_marked};
ghost use Rattle.link_receiver_blocks.specs.Held.{containers_held};

use crate::mapping::Mapping;
use crate::marks::marks_of;
use carrier_plan::{Method, Piece};
use sample_bits::RawIq;

/// Reads samples of a block from sample `first` on, as many as there is room for, and returns their marks. Their containers
/// are those of the first `played` frames, which stand one after another from bit 0 of the octets on.
pub fn read_block(
    mapping: Mapping,
    octets: &[u8],
    missed: u128,
    played: u32,
    first: u32,
    out: &mut [RawIq],
) -> u32
    requires width { IsSampleWidth mapping.m }
    requires rate { IsSampleRate mapping.s mapping.k }
    requires played { played ≤ mapping.k }
    requires samples { first + length out.old ≤ samples_left mapping played }
    requires few { length out.old ≤ 32 }
    requires whole { mapping.k * container_bits mapping ≤ 8 * length octets.now }
    ensures samples { (i : ℕ) → i < length out.old → HoldsAt (λ v. unless_marked (bit_at result i) v
        ≡ sample_of_block mapping (containers_held (container_bits mapping) octets.now missed played) (first + i)) out.new i }
    ensures no_others { result < 2 ^ length out.old }
{
    unpack(mapping, octets, 0, first, out);
    marks_of(mapping, missed, first, out.len() as u32)
}

/// Reads the samples of a block of one frame, whose container stands in one piece, where they lie. Returns their marks.
pub fn read_in_place(mapping: Mapping, frame: Option<&[u8]>, piece: Piece, out: &mut [RawIq]) -> u32
    requires width { IsSampleWidth mapping.m }
    requires rate { IsSampleRate mapping.s mapping.k }
    requires one_frame { mapping.k ≡ 1 }
    requires samples { length out.old ≡ mapping.s }
    requires size { piece.size ≡ container_bits mapping }
    requires within { ForSome frame (λ octets. piece.start + piece.size ≤ 8 * length octets.now) }
    ensures samples { (i : ℕ) → i < length out.old → HoldsAt (λ v. unless_marked (bit_at result i) v
        ≡ sample_of_block mapping (container_played (option_copied frame.entry) (piece ∷ []) ∷ []) i) out.new i }
    ensures no_others { result < 2 ^ length out.old }
{
    match frame {
        Some(octets) => {
            unpack(mapping, octets, piece.start as usize, 0, out);
            0
        }
        None => ((1_u64 << out.len()) - 1) as u32,
    }
}

// Reads samples of a block from sample `first` on. Its containers stand one after another from bit `start` on.
fn unpack(mapping: Mapping, octets: &[u8], start: usize, first: u32, out: &mut [RawIq])
    requires width { IsSampleWidth mapping.m }
    requires rate { IsSampleRate mapping.s mapping.k }
    requires samples { first + length out.old ≤ mapping.s }
    requires whole { start + mapping.k * container_bits mapping ≤ 8 * length octets.now }
    ensures { (i : ℕ) → i < length out.old → HoldsAt (λ v. v ≡ sample_in_block mapping.m
        (container_bits mapping) (place_of_bit mapping (first + i)) octets.now start) out.new i }
{
    let Mapping { method, s, k, m } = mapping;
    match method {
        Method::Sample => axc_sample_map::unpack_raw(octets, start, m, s, k, first, out),
        Method::Compatible => axc_compatible_map::unpack_raw(octets, start, m, s, k, first, out),
    }
}

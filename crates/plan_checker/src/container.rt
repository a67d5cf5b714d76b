// The container of a carrier and its pieces in the IQ data block.
ghost use Rattle.std.specs.Prelude.{All, AllPairs, IsTrue, length, ◌≡◌, ◌↔◌, ◌+◌, ◌<◌, ◌≤◌, ◌^◌};
ghost use Rattle.std.specs.List.{AllWithin, HoldsAt};
ghost use Rattle.plan_checker.specs.SampleRate.{HasSampleRate, HasSampleWidth};
ghost use Rattle.plan_checker.specs.Container.{HasPrescribedSize, HasSeparateBits, LiesWithin, SharesNoBit, SharesNoPiece, container_size, prescribed_size};

use carrier_plan::{Carrier, Method, Piece};

// The bits that the mapping method prescribes.
pub(crate) fn prescribed_bits(carrier: &Carrier) -> u32
    requires rate { HasSampleRate carrier.now }
    requires width { HasSampleWidth carrier.now }
    ensures { result ≡ prescribed_size carrier.now }
{
    let (m, s, k) = (carrier.m, carrier.s, carrier.k);
    match carrier.method {
        Method::Sample => axc_sample_map::size(m, s, k),
        Method::Compatible => axc_compatible_map::size(m, s, k),
    }
}

// The bits of the pieces.
pub(crate) fn bits_of_container(carrier: &Carrier) -> u64
    requires { length carrier.now.pieces ≤ 4 }
    ensures value { result ≡ container_size carrier.now }
    ensures small { result ≤ 17_179_869_180 }
{
    let mut bits = 0;
    for piece in carrier.pieces.as_slice() {
        bits += u64::from(piece.size);
    }
    bits
}

// Whether there are 1 to 4 pieces, none of which is empty.
fn has_fit_pieces(pieces: &[Piece]) -> bool
    ensures { IsTrue result ↔ ((1 ≤ length pieces.now) × (length pieces.now ≤ 4) × All (λ p. 1 ≤ p.size) pieces.now) }
{
    (1..=4).contains(&pieces.len()) && pieces.iter().all(|piece| piece.size >= 1)
}

pub(crate) fn has_prescribed_size(carrier: &Carrier) -> bool
    requires rate { HasSampleRate carrier.now }
    requires width { HasSampleWidth carrier.now }
    ensures { IsTrue result ↔ HasPrescribedSize carrier.now }
{
    has_fit_pieces(carrier.pieces.as_slice())
        && bits_of_container(carrier) == u64::from(prescribed_bits(carrier))
}

// The IQ bit after the piece's last.
pub(crate) fn end(piece: &Piece) -> u64
    ensures { result ≡ piece.now.start + piece.now.size }
{
    u64::from(piece.start) + u64::from(piece.size)
}

pub(crate) fn lies_within(carrier: &Carrier, bits: u64) -> bool
    ensures { IsTrue result ↔ LiesWithin bits carrier.now }
{
    carrier
        .pieces
        .as_slice()
        .iter()
        .all(|piece| end(piece) <= bits)
}

// Whether no bit lies in both pieces, one of which may be empty.
pub(crate) fn shares_no_bit(a: &Piece, b: &Piece) -> bool
    ensures { IsTrue result ↔ SharesNoBit a.now b.now }
{
    end(a).min(end(b)) <= u64::from(a.start.max(b.start))
}

// Whether piece `i` shares no bit with an earlier one.
fn is_new_piece(pieces: &[Piece], i: usize) -> bool
    requires { i < length pieces.now }
    ensures { IsTrue result ↔ HoldsAt (λ b. AllWithin (λ a. SharesNoBit a b) pieces.now 0 i) pieces.now i }
{
    let piece = pieces[i];
    pieces[..i]
        .iter()
        .all(|earlier| shares_no_bit(earlier, &piece))
}

fn has_separate_pieces(pieces: &[Piece]) -> bool
    ensures { IsTrue result ↔ AllPairs SharesNoBit pieces.now }
{
    for i in 0..pieces.len() {
        if !is_new_piece(pieces, i) {
            return false;
        }
    }
    true
}

// Whether one piece shares no bit with any of these.
fn is_apart(a: &Piece, pieces: &[Piece]) -> bool
    ensures { IsTrue result ↔ All (SharesNoBit a.now) pieces.now }
{
    pieces.iter().all(|b| shares_no_bit(a, b))
}

// Whether no piece of the carrier shares a bit with one of these.
fn shares_no_piece(earlier: &Carrier, pieces: &[Piece]) -> bool
    ensures { IsTrue result ↔ SharesNoPiece earlier.now.pieces pieces.now }
{
    earlier
        .pieces
        .as_slice()
        .iter()
        .all(|a| is_apart(a, pieces))
}

// Whether the container in these pieces shares no bit with that of one of the first `i` carriers.
fn is_apart_from_earlier(carriers: &[Carrier], i: usize, pieces: &[Piece]) -> bool
    requires { i ≤ length carriers.now }
    ensures { IsTrue result ↔ AllWithin (λ earlier. SharesNoPiece earlier.pieces pieces.now) carriers.now 0 i }
{
    for j in 0..i {
        if !shares_no_piece(&carriers[j], pieces) {
            return false;
        }
    }
    true
}

// Whether no piece of carrier `i` shares a bit with an earlier one of it, or with one of an earlier carrier.
pub(crate) fn has_separate_bits(carriers: &[Carrier], i: usize) -> bool
    requires { i < length carriers.now }
    ensures { IsTrue result ↔ HoldsAt (HasSeparateBits carriers.now i) carriers.now i }
{
    let pieces = carriers[i].pieces.as_slice();
    has_separate_pieces(pieces) && is_apart_from_earlier(carriers, i, pieces)
}

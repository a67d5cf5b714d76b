//! Laws of the channel: what holds of every list of bits and every written stream. Each is the contract of a function that
//! does nothing.

ghost use Rattle.std.specs.Prelude.{◌≡◌, ℕ, ◌+◌, ◌≤◌, Bool, List, [], ◌∷◌, ◌++◌, take, length, replicate, All, Option, Some, None};
ghost use Rattle.ethernet_channel.specs.Codes.{idle};
ghost use Rattle.ethernet_channel.specs.Events.{events_at, found_last};
ghost use Rattle.ethernet_channel.specs.FastStream.{Channel, fast_stream, after_bits, IsFrame};
ghost use Rattle.ethernet_channel.specs.Written.{IsItem, found_in, found_in_frame, queued, written};
ghost use Rattle.std.specs.List.{flat_map};

/// Whether an event stands at a bit rests on the bits up to it alone.
pub fn events_of_a_front()
    ensures { (n : ℕ) (bits : List Bool) → events_at (take n bits) ≡ take n (events_at bits) }
{}

/// One more bit adds what is found at it, and nothing else.
pub fn events_with_one_more_bit()
    ensures { (bits : List Bool) (bit : Bool)
        → events_at (bits ++ bit ∷ []) ≡ events_at bits ++ found_last (bits ++ bit ∷ []) ∷ [] }
{}

/// Of every front of a written stream those frames are found whose R ends in it, each at the last bit of its R, and
/// nothing else is found.
pub fn written_frames_are_found()
    ensures { (items : List (Option (List ℕ))) → All IsItem items → (n : ℕ)
        → events_at (take n (written items)) ≡ take n (found_in items) }
{}

/// The same of the stream of a channel that frames were queued on before its first bit.
pub fn queued_frames_are_found()
    ensures { (frames : List (List ℕ)) → All IsFrame frames → (n : ℕ)
        → events_at (fast_stream (queued frames) n)
        ≡ take n (replicate 5 None ++ (flat_map found_in_frame frames ++ replicate n None)) }
{}

/// What is written after some bits is what would have been written then.
pub fn stream_goes_on()
    ensures { (m n : ℕ) (c : Channel) → fast_stream c (m + n) ≡ fast_stream c m ++ fast_stream (after_bits m c) n }
{}

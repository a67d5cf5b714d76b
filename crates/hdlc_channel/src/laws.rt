//! Laws of the channel: what is read of all that can be written. Each is the contract of a function that does nothing.

ghost use Rattle.std.specs.Prelude.{◌≡◌, ℕ, ◌+◌, ◌≤◌, ◌++◌, nat_lt, Bool, List, length, filter, map, All, Option, Some};
ghost use Rattle.hdlc_channel.specs.SlowText.{flag};
ghost use Rattle.hdlc_channel.specs.SlowStream.{Channel, IsFrame, after_eight, slow_stream};
ghost use Rattle.hdlc_channel.specs.SlowLaw.{AreRead, IsItem, Wrote, frame_answers, slow_answers, written_bits};

/// The stream after eight bits is that of the channel that is left. So `SlowWriter::next` gives the whole stream, eight bits after
/// another.
pub fn stream_goes_on()
    ensures { (c : Channel) (n : ℕ) → slow_stream c (8 + n) ≡ slow_stream c 8 ++ slow_stream (after_eight c) n }
{}

/// Frames are read as they were written, in whatever order frames and flags follow one another: of the first n bits each frame
/// whose closing flag ends in them is answered as a frame, at that flag's last bit, in order, and nothing else is answered.
pub fn written_is_read()
    ensures { (items : List (Option (List ℕ))) (n : ℕ) → All IsItem items → n ≤ length (written_bits items)
        → slow_answers (written_bits items) n ≡ filter (λ a. nat_lt a.at n) (frame_answers 8 items) }
{}

/// The same of the first n bits of a stream, where all frames are queued before its first bit.
pub fn stream_is_read()
    ensures { (frames : List (List ℕ)) (n : ℕ) → All IsFrame frames
        → slow_answers (slow_stream (record { rest = flag; queue = frames }) n) n
        ≡ filter (λ a. nat_lt a.at n) (frame_answers 8 (map Some frames)) }
{}

/// The same whenever frames are queued: of the bits that a writer gave, each frame whose closing flag ends in them is answered as
/// a frame, in the order in which the frames were queued, and nothing else is answered.
pub fn given_is_read()
    ensures { (queued : List (List ℕ)) (bits : List Bool) (c : Channel) → Wrote queued bits c → AreRead queued bits c }
{}

ghost use Rattle.std.specs.Prelude.{◌≡◌, ℕ, ◌+◌, ◌*◌, ◌%◌, ◌<◌};
ghost use Rattle.hyperframe.specs.Numbering.{frame_x, frame_z, frame_bfn};

/// Basic frames in a hyperframe (CPRI Specification V7.0, section 4.2.7.3).
const HYPERFRAME: u64 = 256;
/// Hyperframes in a radio frame of 10 ms.
const HYPERFRAMES: u64 = 150;
/// Radio frames after which BFN begins anew, since it has twelve bits.
const RADIO_FRAMES: u64 = 4096;

/// The numbers that name a basic frame on the link (CPRI Specification V7.0, section 4.2.7.3).
#[derive(Clone, Copy, Debug, PartialEq, Eq)]
pub struct FramePlace {
    /// The number of the radio frame, 0 to 4,095.
    pub bfn: u16,
    /// The place of the hyperframe in its radio frame, 0 to 149.
    pub z: u8,
    /// The place of the basic frame in its hyperframe, 0 to 255.
    pub x: u8,
}

/// The place of basic frame `n` of a run, counted from 0.
pub fn place_of(n: u64) -> FramePlace
    ensures x { result.x ≡ frame_x n }
    ensures z { result.z ≡ frame_z n }
    ensures bfn { result.bfn ≡ frame_bfn n }

    // The three numbers count the frame from the last frame at which all of them were 0.
    ensures z_range { result.z < 150 }
    ensures bfn_range { result.bfn < 4096 }
    ensures counted { 38400 * result.bfn + 256 * result.z + result.x ≡ n % 157286400 }
{
    FramePlace {
        bfn: (n / (HYPERFRAME * HYPERFRAMES) % RADIO_FRAMES) as u16,
        z: (n / HYPERFRAME % HYPERFRAMES) as u8,
        x: (n % HYPERFRAME) as u8,
    }
}

//! Loss of signal by the violations of the line code.

ghost use Rattle.std.specs.Prelude.{◌≡◌, ◌+◌, ◌≤◌, min, Bool, ◌==◌, ◌||◌, ◌&&◌, nat_le, true, false, if◌then◌else◌, List, [], ◌∷◌, ◌++◌};
ghost use Rattle.hyperframe.specs.Loss.{Counted, is_lost};

/// Violations within a window that make a loss of signal (CPRI Specification V7.0, section 4.2.10.3.1).
const LOSS: u32 = 16;
/// Basic frames in a window, which is as long as a hyperframe.
const WINDOW: u16 = 256;

/// Counts violations of the line code in windows of at most a hyperframe.
#[derive(Clone, Copy, Debug, PartialEq, Eq)]
pub struct Los {
    /// The frames of the window of the last frame.
    frames: u16,
    /// The violations in them, or the greatest number where there are more.
    violations: u32,
    lost: bool,
    ghost in_window: { frames ≤ 256 },
}

impl Los {
    ghost use Rattle.hyperframe.specs.CountsLoss.{CountsLoss, counted};

    /// A count of no frame, at which the signal is not lost.
    pub fn new() -> Los
        ensures { CountsLoss result [] }
    {
        Los {
            frames: 0,
            violations: 0,
            lost: false,
        }
    }

    /// Takes the next basic frame and its violations. `first` says that it begins a hyperframe, with which a new window
    /// begins. It answers whether the signal is lost.
    pub fn step(&mut self, first: bool, violations: u32) -> bool
        ensures answer { (frames : List Counted) → CountsLoss self.old frames
            → result ≡ is_lost (frames ++ counted first violations ∷ []) }
        ensures stands { (frames : List Counted) → CountsLoss self.old frames
            → CountsLoss self.new (frames ++ counted first violations ∷ []) }
    {
        self.add(first, violations);
        self.lost = self.is_lost();
        self.lost
    }

    /// Adds a frame to the window, or begins a new window with it.
    fn add(&mut self, first: bool, violations: u32)
        ensures frames { self.new.frames ≡ (if first || self.old.frames == 256 then 0 else self.old.frames) + 1 }
        ensures violations { self.new.violations
            ≡ min ((if first || self.old.frames == 256 then 0 else self.old.violations) + violations) 4294967295 }
        ensures lost { self.new.lost ≡ self.old.lost }
    {
        if first || self.frames == WINDOW {
            self.frames = 0;
            self.violations = 0;
        }
        self.frames += 1;
        self.violations = self.violations.saturating_add(violations);
    }

    /// Whether the signal is lost by the window, or was and still is.
    fn is_lost(&self) -> bool
        ensures { result ≡ (if nat_le 16 self.now.violations then true
            else (if self.now.frames == 256 && self.now.violations == 0 then false else self.now.lost)) }
    {
        let is_clear = self.frames == WINDOW && self.violations == 0;
        self.violations >= LOSS || self.lost && !is_clear
    }
}

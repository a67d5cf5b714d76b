// Text that is laid out in the room behind a text.
ghost use Rattle.std.specs.Prelude.{◌+◌, ◌≤◌, length};
ghost use Rattle.link_text.specs.Laid.{Lays};

/// What lays its text out behind another one, so that the octets are written where they stay and pieces of a fixed length
/// may be stored over each other's ends.
pub trait Lay {
    ghost use Rattle.std.specs.Prelude.{ℕ, List};

    // the text
    ghost text: { Self → List ℕ };

    // how many octets behind the other text may be written
    ghost room: { Self → ℕ };

    /// Lays the text out behind the one that stands in the first `at` octets, and says where the two end. The octets
    /// behind them may be any.
    fn lay(&self, octets: &mut [u8], at: usize) -> usize
        requires { at + room self.now ≤ length octets.old }
        ensures { Lays (text self.now) octets.old at octets.new result };
}

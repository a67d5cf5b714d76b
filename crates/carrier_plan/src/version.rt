// The versions of the text of a plan.
ghost use Rattle.std.specs.Prelude.{◌≡◌};
ghost use Rattle.carrier_plan.specs.Keys.{number_of_version};

/// How a plan writes the containers of its carriers.
#[derive(Clone, Copy, Debug, PartialEq, Eq)]
pub(crate) enum Version {
    /// By `start` and `size`, so in one piece.
    One,
    /// By `pieces`.
    Two,
}

impl Version {
    /// The number at the key `version`.
    pub(crate) fn number(self) -> u32
        ensures { result ≡ number_of_version self }
    {
        match self {
            Version::One => 1,
            Version::Two => 2,
        }
    }
}

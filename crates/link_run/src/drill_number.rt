// The number of a drill.
ghost use Rattle.std.specs.Prelude.{◌<◌, ◌^◌};

/// The number that a drill is made from.
#[derive(Clone, Copy, Debug)]
pub struct DrillNumber {
    pub value: u32,
    ghost in_range: { value < 2 ^ 31 },
}

impl DrillNumber {
    /// The greatest one.
    pub const GREATEST: u64 = 2_147_483_647;
}

// A failure of a plan.
ghost use Rattle.std.specs.Prelude.{◌≡◌, ◌<◌, ◌^◌};

// The rule that fails, and the item that it fails at.
pub(crate) struct Failure {
    pub(crate) rule: u32,
    pub(crate) item: u32,
}

impl Failure {
    pub(crate) fn at(rule: u32, place: usize) -> Failure
        requires { place < 2 ^ 32 }
        ensures number { result.rule ≡ rule }
        ensures place { result.item ≡ place }
    {
        Failure {
            rule,
            item: place as u32,
        }
    }
}

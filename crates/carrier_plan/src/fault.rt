// Why a plan cannot be read.
ghost use Rattle.std.specs.Prelude.{◌≡◌, ◌≤◌, length};
ghost use Rattle.carrier_plan.specs.Keys.{key_of};

use link_base::NoMemory;
use thiserror::Error;

/// A table of a plan.
#[derive(Clone, Copy, Debug, PartialEq, Eq)]
pub enum Part {
    /// The whole document.
    Top,
    /// The carrier at this place, from 0.
    Carrier(u32),
    /// The flow at this place, from 0.
    Flow(u32),
}

/// A key of a plan. `LineOption` stands for the key `option`.
#[derive(Clone, Copy, Debug, PartialEq, Eq)]
pub enum Field {
    Version,
    LineOption,
    Mode,
    Playout,
    Carrier,
    Flow,
    Method,
    S,
    K,
    M,
    Start,
    Size,
    Pieces,
    Id,
    Dst,
    Src,
    Control,
    Carriers,
    Frames,
    Lmin,
    Lmax,
    Cap,
    P,
    Q,
}

impl Field {
    /// The key as it stands in a plan.
    pub fn key(self) -> &'static str
        ensures key { result.now ≡ key_of self }
        ensures len { length result.now ≤ 8 }
    {
        match self {
            Field::Version => "version",
            Field::LineOption => "option",
            Field::Mode => "mode",
            Field::Playout => "playout",
            Field::Carrier => "carrier",
            Field::Flow => "flow",
            Field::Method => "method",
            Field::S => "s",
            Field::K => "k",
            Field::M => "m",
            Field::Start => "start",
            Field::Size => "size",
            Field::Pieces => "pieces",
            Field::Id => "id",
            Field::Dst => "dst",
            Field::Src => "src",
            Field::Control => "control",
            Field::Carriers => "carriers",
            Field::Frames => "frames",
            Field::Lmin => "lmin",
            Field::Lmax => "lmax",
            Field::Cap => "cap",
            Field::P => "p",
            Field::Q => "q",
        }
    }
}

/// A key of one table of a plan.
#[derive(Clone, Copy, Debug, PartialEq, Eq)]
pub struct Spot {
    pub part: Part,
    pub field: Field,
}

/// The first fault in the text of a plan.
#[derive(Clone, Copy, Debug, PartialEq, Eq)]
pub enum PlanText {
    /// More than 65,536 octets.
    Long,
    /// The octets are not UTF-8.
    Utf8,
    /// The text is not TOML.
    Toml,
    /// A required key is absent.
    Missing(Spot),
    /// A value is of another kind than its key asks for. For an element of `carrier` or `flow` that is no
    /// table, the spot is that element's part with the field `Carrier` or `Flow`.
    Kind(Spot),
    /// A value is of the right kind, and out of range or unknown.
    Value(Spot),
    /// A table has a key that it may not have.
    Extra(Part),
}

/// Why `read` gave no plan.
#[derive(Debug, Drop, Error)]
pub enum ReadError {
    #[error("{0}")]
    Text(PlanText),
    #[error("out of memory")]
    NoMemory,
}

impl From<PlanText> for ReadError {
    ghost use Rattle.std.specs.Prelude.{◌≡◌};
    ghost use Rattle.carrier_plan.specs.declared.fault.ReadError.TheVariants.{Text};

    ghost from_gives = { λ fault e. e ≡ Text fault };

    fn from(fault: PlanText) -> ReadError {
        ReadError::Text(fault)
    }
}

impl From<NoMemory> for ReadError {
    ghost use Rattle.std.specs.Prelude.{◌≡◌};
    ghost use Rattle.carrier_plan.specs.declared.fault.ReadError.TheVariants.{NoMemory};

    ghost from_gives = { λ _ e. e ≡ NoMemory };

    fn from(_: NoMemory) -> ReadError {
        ReadError::NoMemory
    }
}

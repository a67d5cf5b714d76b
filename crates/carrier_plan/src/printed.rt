// The line that tells of a fault in a plan.
ghost use Rattle.std.specs.Prelude.{◌≡◌, ◌+◌, ◌≤◌, ◌++◌, length, codes, decimal, Some};
ghost use Rattle.carrier_plan.specs.Printed.{part_text, spot_text, plan_text_line};

use crate::fault::{Part, PlanText, Spot};
use arrayvec::ArrayString;
use itoa::Buffer;
use std::error::Error;
use std::fmt;

// A line has at most 40 octets, and the digits are reckoned at 40.
type Line = ArrayString<80>;

impl PlanText {
    /// The line that tells of the fault, without its line feed, as `plan missing carrier 0 size`.
    pub fn line(self) -> ArrayString<80>
        ensures { result.bytes ≡ plan_text_line self }
    {
        match self {
            PlanText::Long => line_of("plan long"),
            PlanText::Utf8 => line_of("plan utf8"),
            PlanText::Toml => line_of("plan toml"),
            PlanText::Missing(spot) => spot_line("plan missing ", spot),
            PlanText::Kind(spot) => spot_line("plan kind ", spot),
            PlanText::Value(spot) => spot_line("plan value ", spot),
            PlanText::Extra(part) => part_line("plan extra ", part),
        }
    }
}

fn line_of(text: &str) -> Line
    requires { length text.now ≤ 20 }
    ensures { result.bytes ≡ text.now }
{
    let mut line = Line::new();
    line.push_str(text);
    line
}

fn place_line(front: &str, part: &str, i: u32) -> Line
    requires front { length front.now ≤ 20 }
    requires part { length part.now ≤ 8 }
    ensures text { result.bytes ≡ front.now ++ part.now ++ decimal i }
    ensures len { length result.bytes ≤ 68 }
{
    let mut line = line_of(front);
    line.push_str(part);
    line.push_str(Buffer::new().format(i));
    line
}

fn place_key_line(front: &str, part: &str, i: u32, key: &str) -> Line
    requires front { length front.now ≤ 20 }
    requires part { length part.now ≤ 8 }
    requires key { length key.now ≤ 8 }
    ensures { result.bytes ≡ front.now ++ part.now ++ decimal i ++ codes " " ++ key.now }
{
    let mut line = place_line(front, part, i);
    line.push_str(" ");
    line.push_str(key);
    line
}

fn part_line(front: &str, part: Part) -> Line
    requires { length front.now ≤ 20 }
    ensures { result.bytes ≡ front.now ++ part_text part }
{
    match part {
        Part::Top => {
            let mut line = line_of(front);
            line.push_str("top");
            line
        }
        Part::Carrier(i) => place_line(front, "carrier ", i),
        Part::Flow(i) => place_line(front, "flow ", i),
    }
}

fn spot_line(front: &str, spot: Spot) -> Line
    requires { length front.now ≤ 20 }
    ensures { result.bytes ≡ front.now ++ spot_text spot }
{
    let key = spot.field.key();
    match spot.part {
        Part::Top => {
            let mut line = line_of(front);
            line.push_str(key);
            line
        }
        Part::Carrier(i) => place_key_line(front, "carrier ", i, key),
        Part::Flow(i) => place_key_line(front, "flow ", i, key),
    }
}

impl fmt::Display for PlanText {
    ghost output = { λ fault. Some (plan_text_line fault) };

    fn fmt<W: fmt::Write>(&self, f: &mut fmt::Formatter<W>) -> fmt::Result {
        f.write_str(self.line().as_str())
    }
}

impl Error for PlanText {}

// The first fault in the text of a plan in words: where it is, what stands there, and what is asked for.
use crate::values_in_words::{list_in_words, pieces_in_words, value_in_words};
use carrier_plan::{Field, Part, PlanText, Spot};
use std::alloc::{AllocError, Global};
use toml::{Table, Value};

const TOP_KEYS: [&str; 6] = ["version", "option", "mode", "playout", "carrier", "flow"];

const CARRIER_KEYS: [&str; 6] = ["method", "s", "k", "m", "start", "size"];

/// The keys of a carrier in version 2 of plans.
const CARRIER_IN_PIECES_KEYS: [&str; 5] = ["method", "s", "k", "m", "pieces"];

const FLOW_KEYS: [&str; 11] = [
    "id", "dst", "src", "control", "carriers", "frames", "lmin", "lmax", "cap", "p", "q",
];

/// One sentence on the first fault in the octets of a plan's file.
pub fn fault_in_words(alloc: Global, octets: &[u8], fault: PlanText) -> Result<String, AllocError> {
    match fault {
        PlanText::Long => {
            String::from_str(
                alloc,
                "the file has more than 65536 octets, which is the most",
            )
        }
        PlanText::Utf8 => not_utf8(alloc, octets),
        PlanText::Toml => not_toml(alloc, octets),
        PlanText::Missing(spot) => missing(alloc, spot),
        PlanText::Kind(spot) | PlanText::Value(spot) => wrong_value(alloc, octets, spot),
        PlanText::Extra(part) => extra_key(alloc, octets, part),
    }
}

// The line, from 1, at which this many octets are past.
fn line_at(octets: &[u8], count: usize) -> usize {
    let lines = octets.iter().take(count).filter(|c| **c == b'\n').count();
    lines.saturating_add(1)
}

fn not_utf8(alloc: Global, octets: &[u8]) -> Result<String, AllocError> {
    let Err(error) = std::str::from_utf8(octets) else {
        return String::from_str(alloc, "the file is not UTF-8");
    };
    let count = error.valid_up_to();
    let line = line_at(octets, count);
    format!(in alloc;
        "line {line}: the octets from place {count} on, counted from 0, are not UTF-8"
    )
}

fn not_toml(alloc: Global, octets: &[u8]) -> Result<String, AllocError> {
    let text = std::str::from_utf8(octets).unwrap_or("");
    match toml::table_from_str(alloc, text) {
        Ok(_) => String::from_str(alloc, "the file is not TOML"),
        Err(error) => {
            let start = error.span().map_or(0, |span| span.start);
            let line = line_at(octets, start);
            let column = column_at(octets, start);
            let message = error.message();
            format!(in alloc; "line {line}, column {column}: this is not TOML: {message}")
        }
    }
}

// The column of a place, from 1, in characters.
fn column_at(octets: &[u8], place: usize) -> usize {
    let before = octets.iter().take(place).rev();
    let count = before
        .take_while(|c| **c != b'\n')
        .filter(|c| **c & 0xc0 != 0x80)
        .count();
    count.saturating_add(1)
}

fn missing(alloc: Global, spot: Spot) -> Result<String, AllocError> {
    let part = part_in_words(alloc, spot.part)?;
    let key = spot.field.key();
    let asked = asked_of(spot);
    format!(in alloc; "{part} has no {key}, which has to be {asked}")
}

fn wrong_value(alloc: Global, octets: &[u8], spot: Spot) -> Result<String, AllocError> {
    let place = spot_in_words(alloc, spot)?;
    let found = found_at(alloc, octets, spot)?;
    let asked = asked_of(spot);
    format!(in alloc; "{place} is {found}, and has to be {asked}")
}

fn extra_key(alloc: Global, octets: &[u8], part: Part) -> Result<String, AllocError> {
    let part_words = part_in_words(alloc, part)?;
    let Some(top) = top_of(alloc, octets) else {
        return format!(in alloc; "{part_words} has a key that it may not have");
    };
    let known = keys_of(&top, part);
    let Some(table) = table_at(&top, part) else {
        return format!(in alloc; "{part_words} has a key that it may not have");
    };
    let extra = table
        .keys()
        .find(|key| !known.iter().any(|name| *name == key.as_str()));
    match extra {
        Some(key) => {
            format!(in alloc;
                "{part_words} has the key {key:?}, and may have these alone: {known:?}"
            )
        }
        None => format!(in alloc; "{part_words} has a key that it may not have"),
    }
}

fn keys_of(top: &Table, part: Part) -> &'static [&'static str] {
    match part {
        Part::Top => &TOP_KEYS,
        Part::Carrier(_) if has_pieces(top) => &CARRIER_IN_PIECES_KEYS,
        Part::Carrier(_) => &CARRIER_KEYS,
        Part::Flow(_) => &FLOW_KEYS,
    }
}

// Whether the plan is of version 2.
fn has_pieces(top: &Table) -> bool {
    top.get("version").and_then(|it| it.as_integer()) == Some(2)
}

fn part_in_words(alloc: Global, part: Part) -> Result<String, AllocError> {
    match part {
        Part::Top => String::from_str(alloc, "the plan"),
        Part::Carrier(i) => format!(in alloc; "carrier {i}"),
        Part::Flow(i) => format!(in alloc; "flow {i}"),
    }
}

// The key and its table. An element of `carrier` or `flow` stands for itself.
fn spot_in_words(alloc: Global, spot: Spot) -> Result<String, AllocError> {
    let part = part_in_words(alloc, spot.part)?;
    match (spot.part, spot.field) {
        (Part::Carrier(_), Field::Carrier) | (Part::Flow(_), Field::Flow) => Ok(part),
        (_, field) => {
            let key = field.key();
            format!(in alloc; "{key} of {part}")
        }
    }
}

// What the value at a key has to be.
fn asked_of(spot: Spot) -> &'static str {
    match (spot.part, spot.field) {
        (_, Field::Version) => "1 or 2",
        (_, Field::Mode) => "\"tunnel\", \"bytes\" or \"aware\"",
        (_, Field::Method) => "1 or 3",
        (_, Field::Dst | Field::Src) => "a text of 12 hexadecimal digits",
        (_, Field::Control) => "true or false",
        (_, Field::Carriers) => "an array of whole numbers from 0 to 4294967295",
        (_, Field::Pieces) => {
            "an array of pairs [start, size] of whole numbers from 0 to 4294967295"
        }
        (Part::Top, Field::Carrier | Field::Flow) => "an array of tables",
        (_, Field::Carrier | Field::Flow) => "a table",
        _ => "a whole number from 0 to 4294967295",
    }
}

fn top_of(alloc: Global, octets: &[u8]) -> Option<Table> {
    toml::table_from_str(alloc, std::str::from_utf8(octets).ok()?).ok()
}

// The element of an array of the plan.
fn element_at<'a>(top: &'a Table, key: &str, i: u32) -> Option<&'a Value> {
    top.get(key)?.as_array()?.as_slice().get(i as usize)
}

// The table of a part of the plan.
fn table_at<'a>(top: &'a Table, part: Part) -> Option<&'a Table> {
    match part {
        Part::Top => Some(top),
        Part::Carrier(i) => element_at(top, "carrier", i)?.as_table(),
        Part::Flow(i) => element_at(top, "flow", i)?.as_table(),
    }
}

fn value_at<'a>(top: &'a Table, spot: Spot) -> Option<&'a Value> {
    match (spot.part, spot.field) {
        (Part::Carrier(i), Field::Carrier) => element_at(top, "carrier", i),
        (Part::Flow(i), Field::Flow) => element_at(top, "flow", i),
        (part, field) => table_at(top, part)?.get(field.key()),
    }
}

// The value at a key, in words.
fn found_at(alloc: Global, octets: &[u8], spot: Spot) -> Result<String, AllocError> {
    let Some(top) = top_of(alloc, octets) else {
        return String::from_str(alloc, "something else");
    };
    match value_at(&top, spot) {
        Some(Value::Array(values)) if spot.field == Field::Carriers => {
            list_in_words(alloc, values.as_slice())
        }
        Some(Value::Array(values)) if spot.field == Field::Pieces => {
            pieces_in_words(alloc, values.as_slice())
        }
        Some(value) => value_in_words(alloc, value),
        None => String::from_str(alloc, "something else"),
    }
}

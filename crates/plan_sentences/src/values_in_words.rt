// What stands in the text of a plan, in words.
use std::alloc::{AllocError, Global};
use toml::Value;

/// A text with more octets than this is told by their number.
const LONG_TEXT: usize = 40;

/// The value at a key, as it stands there where that is short.
pub fn value_in_words(alloc: Global, value: &Value) -> Result<String, AllocError> {
    match value {
        Value::String(text) => text_in_words(alloc, text.as_str()),
        Value::Integer(number) => format!(in alloc; "{number}"),
        Value::Float(number) => format!(in alloc; "{number}, with a fraction"),
        Value::Boolean(truth) => format!(in alloc; "{truth}"),
        Value::Datetime(_) => String::from_str(alloc, "a date or a time"),
        Value::Array(values) => {
            let count = values.len();
            format!(in alloc; "an array of {count}")
        }
        Value::Table(_) => String::from_str(alloc, "a table"),
    }
}

fn text_in_words(alloc: Global, text: &str) -> Result<String, AllocError> {
    let count = text.len();
    if count > LONG_TEXT {
        format!(in alloc; "a text of {count} octets")
    } else {
        format!(in alloc; "the text {text:?}")
    }
}

/// The numbers that a flow lists, by the first that is wrong.
pub fn list_in_words(alloc: Global, values: &[Value]) -> Result<String, AllocError> {
    let other = values.iter().find(|value| !value.is_integer());
    match other.or(values.iter().find(|value| !is_whole_number(value))) {
        Some(value) => {
            let found = value_in_words(alloc, value)?;
            format!(in alloc; "an array with {found}")
        }
        None => String::from_str(alloc, "an array of whole numbers"),
    }
}

fn is_whole_number(value: &Value) -> bool {
    value
        .as_integer()
        .is_some_and(|number| u32::try_from(number).is_ok())
}

/// The pieces of a container, by the first that is no pair of whole numbers, or else by the first number that is wrong.
pub fn pieces_in_words(alloc: Global, values: &[Value]) -> Result<String, AllocError> {
    let other = values.iter().find(|value| !is_pair(value));
    match other.or(first_wrong_number(values)) {
        Some(value) => {
            let found = value_in_words(alloc, value)?;
            format!(in alloc; "an array with {found}")
        }
        None => String::from_str(alloc, "an array of pairs"),
    }
}

fn is_pair(value: &Value) -> bool {
    match value.as_array() {
        Some(pair) => pair.len() == 2 && pair.as_slice().iter().all(|it| it.is_integer()),
        None => false,
    }
}

fn first_wrong_number(values: &[Value]) -> Option<&Value> {
    for value in values {
        if let Some(pair) = value.as_array()
            && let Some(number) = pair.as_slice().iter().find(|it| !is_whole_number(it))
        {
            return Some(number);
        }
    }
    None
}

// What the words of a call ask for.
ghost use Rattle.std.specs.Prelude.{◌≡◌, map, string_bytes};
ghost use Rattle.link_text.specs.Decimals.{decimal_value};
ghost use Rattle.link_run.specs.Call.{call_of, call_of_drill, call_on_one, call_on_two};
ghost use Rattle.link_run.specs.CodeForm.{call_shown};

use crate::drill_number::DrillNumber;
use link_text::decimal;

/// A form of the words, with the names of its files.
#[derive(Clone, Copy, Debug)]
pub enum Form<'a> {
    /// `check PLAN`
    Check { plan: &'a str },
    /// `startup EVENTS`
    Startup { events: &'a str },
    /// `inspect LINE`
    Inspect { line: &'a str },
    /// `replay PLAN CAPTURE`
    Replay { plan: &'a str, capture: &'a str },
    /// `send PLAN SAMPLES`
    Send { plan: &'a str, samples: &'a str },
    /// `line PLAN SAMPLES`
    Line { plan: &'a str, samples: &'a str },
    /// `drill NUMBER`
    Drill { number: DrillNumber },
}

/// The form of the words after the program's name, if they are of one.
pub fn form_of(words: &[String]) -> Option<Form<'_>>
    ensures { call_shown result ≡ call_of (map string_bytes words.now) }
{
    match words {
        [word, name] => form_on_one(word.as_str(), name.as_str()),
        [word, plan, feed] => form_on_two(word.as_str(), plan.as_str(), feed.as_str()),
        _ => None,
    }
}

// The form of a word and one file.
fn form_on_one<'a>(word: &str, name: &'a str) -> Option<Form<'a>>
    ensures { call_shown result ≡ call_on_one word.now name.now }
{
    match word {
        "check" => Some(Form::Check { plan: name }),
        "startup" => Some(Form::Startup { events: name }),
        "inspect" => Some(Form::Inspect { line: name }),
        "drill" => form_of_drill(name),
        _ => None,
    }
}

// The form of a word and two files.
fn form_on_two<'a>(word: &str, plan: &'a str, feed: &'a str) -> Option<Form<'a>>
    ensures { call_shown result ≡ call_on_two word.now plan.now feed.now }
{
    match word {
        "replay" => Some(Form::Replay {
            plan,
            capture: feed,
        }),
        "send" => Some(Form::Send {
            plan,
            samples: feed,
        }),
        "line" => Some(Form::Line {
            plan,
            samples: feed,
        }),
        _ => None,
    }
}

// The form of a drill by its number.
fn form_of_drill<'a>(number: &str) -> Option<Form<'a>>
    ensures { call_shown result ≡ call_of_drill number.now }
{
    match decimal(number.as_bytes(), DrillNumber::GREATEST) {
        Some(value) => Some(Form::Drill {
            number: DrillNumber {
                value: value as u32,
            },
        }),
        None => None,
    }
}

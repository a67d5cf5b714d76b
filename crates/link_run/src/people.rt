// What people are told on standard error, beside what standard output has.
use crate::form::{Form, form_of};
use link_base::FileShelf;
use link_run_feed::{Reason, Status};
use plan_sentences::explain_plan;
use std::io;

/// Says on standard error what standard output does not: the calls that there are, the file that could not be read and why,
/// what is wrong with a plan in words and figures, and what was expected of a line.
pub fn explain(
    rt: &HostRuntime,
    words: &[String],
    status: &Status,
    shelf: &FileShelf<'_>,
) -> io::Result<()> {
    let form = form_of(words);
    match status {
        Status::Done => Ok(()),
        Status::Usage => explain_usage(rt),
        Status::No { .. } | Status::PlanText(_) => explain_plan(rt, plan_of(&form), status),
        Status::FeedBad { line, reason } => explain_line(rt, feed_of(&form), *line, *reason),
        Status::ReadFault => explain_fault(rt, &form, shelf),
        Status::WriteFault => eprintln!(rt; "roe_link: standard output could not be written"),
        Status::NoMemory => eprintln!(rt; "roe_link: out of memory"),
    }
}

fn explain_usage(rt: &impl Eprint) -> io::Result<()> {
    eprintln!(rt; "roe_link: these are the commands:")?;
    eprintln!(rt;
        "  roe_link check PLAN             says whether a plan meets the rules, and how long samples take"
    )?;
    eprintln!(rt;
        "  roe_link replay PLAN CAPTURE    plays captured packets, and prints the samples that leave"
    )?;
    eprintln!(rt; "  roe_link send PLAN SAMPLES      writes the packets of samples, as a capture")?;
    eprintln!(rt; "  roe_link line PLAN SAMPLES      writes the 8B/10B symbols of samples")?;
    eprintln!(rt;
        "  roe_link inspect LINE           says what the 8B/10B symbols of a line show: synchronization, announcements, management frames"
    )?;
    eprintln!(rt;
        "  roe_link startup EVENTS         says what two ends of a link do over a list of start-up events"
    )?;
    eprintln!(rt;
        "  roe_link drill NUMBER           makes a run from a number, loses and repeats packets, and counts what is played"
    )
}

// The file that is read whole.
fn plan_of<'a>(form: &Option<Form<'a>>) -> &'a str {
    match form {
        Some(Form::Check { plan }) => plan,
        Some(Form::Replay { plan, .. } | Form::Send { plan, .. } | Form::Line { plan, .. }) => plan,
        _ => "the plan",
    }
}

// The file that is read line by line.
fn feed_of<'a>(form: &Option<Form<'a>>) -> &'a str {
    match form {
        Some(Form::Startup { events }) => events,
        Some(Form::Inspect { line }) => line,
        Some(Form::Replay { capture, .. }) => capture,
        Some(Form::Send { samples, .. } | Form::Line { samples, .. }) => samples,
        _ => "the file",
    }
}

// Which file could not be read, or which two may be the one.
fn explain_fault(
    rt: &impl Eprint,
    form: &Option<Form<'_>>,
    shelf: &FileShelf<'_>,
) -> io::Result<()> {
    match form {
        Some(Form::Check { plan }) => explain_file(rt, plan, shelf),
        Some(Form::Startup { events }) => explain_file(rt, events, shelf),
        Some(Form::Inspect { line }) => explain_file(rt, line, shelf),
        Some(Form::Replay { plan, capture }) => explain_files(rt, plan, capture, shelf),
        Some(Form::Send { plan, samples } | Form::Line { plan, samples }) => {
            explain_files(rt, plan, samples, shelf)
        }
        Some(Form::Drill { .. }) | None => Ok(()),
    }
}

// A shelf does not tell at which of two files a failure came.
fn explain_files(
    rt: &impl Eprint,
    one: &str,
    other: &str,
    shelf: &FileShelf<'_>,
) -> io::Result<()> {
    match shelf.error() {
        Some(error) => eprintln!(rt; "roe_link: {one} or {other}: {error}"),
        None => eprintln!(rt; "roe_link: {one} or {other}: could not be read"),
    }
}

fn explain_file(rt: &impl Eprint, name: &str, shelf: &FileShelf<'_>) -> io::Result<()> {
    match shelf.error() {
        Some(error) => eprintln!(rt; "roe_link: {name}: {error}"),
        None => eprintln!(rt; "roe_link: {name}: could not be read"),
    }
}

// Which line is the first bad one, and what was expected there.
fn explain_line(rt: &impl Eprint, name: &str, line: u64, reason: Reason) -> io::Result<()> {
    let sentence = match reason {
        Reason::Header => "this is no header of the file",
        Reason::Number => "a number is missing, or is out of its range",
        Reason::Hex => "hexadecimal digits were expected",
        Reason::Order => "the tick is below the one before it",
        Reason::Range => "a value does not fit the bits of its carrier",
        Reason::Count => "the file has too few lines or too many",
        Reason::Many => {
            "the file has too many lines, announcements that are on their way, or octets of management frames"
        }
        Reason::Word => {
            "events are such as `tell 1`; frames of a management channel stand before the samples, where the header announces the channel"
        }
        Reason::Long => "a line has at most 4,096 octets",
        Reason::Unended => "the file ends before the line feed after `end`",
        Reason::After => "nothing may follow `end`",
    };
    eprintln!(rt; "roe_link: {name}: line {line}: {sentence}")
}

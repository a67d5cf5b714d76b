// What people are told of a plan that is refused, on standard error.
use crate::faults_in_words::fault_in_words;
use crate::rules_in_words::{place_in_words, rule_in_words};
use carrier_plan::{PlanText, read};
use link_base::{FileShelf, Shelf, fill};
use link_run_feed::Status;
use plan_checker::{Refused, check};
use std::{fs, io};

/// One octet more than a plan may have.
const MOST_OCTETS: usize = 65_537;

/// Says why the plan of this name was refused with this status: the rule that fails with its figures, or where the text is no
/// plan, what stands there and what is asked for. It says nothing where the status is another.
pub fn explain_plan(rt: &HostRuntime, name: &str, status: &Status) -> io::Result<()> {
    match status {
        Status::No { rule, item } => explain_rule(rt, name, *rule, *item),
        Status::PlanText(fault) => explain_fault(rt, name, *fault),
        _ => Ok(()),
    }
}

// The file is read once more for its figures, which a status does not have. A pipe is not read, since what it had is gone.
fn octets_of(rt: &HostRuntime, name: &str) -> Option<Vec<u8>> {
    if !fs::metadata(rt, name).ok()?.is_file() {
        return None;
    }
    let mut shelf = FileShelf::new(rt);
    shelf.select(name).ok()?;
    let mut octets = vec![in rt.alloc(); 0u8; MOST_OCTETS].ok()?;
    let count = fill(&mut shelf, octets.as_mut_slice()).ok()?;
    octets.truncate(count);
    Some(octets)
}

fn refusal_of(rt: &HostRuntime, name: &str) -> Option<Refused> {
    let octets = octets_of(rt, name)?;
    let plan = read(rt.alloc(), octets.as_slice()).ok()?;
    check(plan).err()
}

fn explain_rule(rt: &HostRuntime, name: &str, rule: u32, item: u32) -> io::Result<()> {
    match refusal_of(rt, name) {
        Some(refused) if refused.rule == rule && refused.item == item => {
            let sentence = rule_in_words(rt.alloc(), &refused)?;
            eprintln!(rt; "roe_link: {name}: {sentence}")
        }
        _ => {
            let place = place_in_words(rt.alloc(), rule, item)?;
            eprintln!(rt; "roe_link: {name}: {place}: docs/PLAN.md says what it asks for")
        }
    }
}

fn explain_fault(rt: &HostRuntime, name: &str, fault: PlanText) -> io::Result<()> {
    match octets_of(rt, name) {
        Some(octets) => {
            let sentence = fault_in_words(rt.alloc(), octets.as_slice(), fault)?;
            eprintln!(rt; "roe_link: {name}: {sentence}")
        }
        None => eprintln!(rt; "roe_link: {name}: docs/FORMATS.md says what a plan has"),
    }
}

//! `roe_link`: whether a plan of a CPRI link in Radio-over-Ethernet packets holds.
#![tactic(auto)]

mod drill_number;
mod form;
mod people;
mod run;

use link_base::{FileShelf, StdSink};
use link_run_feed::{Status, code};
pub use run::run;
use std::env;
use std::io::{self, ErrorKind};
use std::process::ExitCode;

/// The program ends with this where the system did not give its words. No status has this code.
const NO_WORDS: u8 = 13;

// The words after the program's name.
fn words_of(rt: &HostRuntime) -> io::Result<Vec<String>> {
    let mut words = Vec::new(rt.alloc());
    for word in env::args(rt)?.skip(1) {
        words.push(word)?;
    }
    Ok(words)
}

fn main(rt: HostRuntime) -> ExitCode {
    let words = match words_of(&rt) {
        Ok(words) => words,
        Err(error) if error.kind() == ErrorKind::OutOfMemory => {
            return ExitCode::from(code(&Status::NoMemory));
        }
        Err(_) => return ExitCode::from(NO_WORDS),
    };
    let mut shelf = FileShelf::new(&rt);
    let mut out = StdSink::new(&rt);
    let status = run(rt.alloc(), words.as_slice(), &mut shelf, &mut out);
    let _ = people::explain(&rt, words.as_slice(), &status, &shelf);
    ExitCode::from(code(&status))
}

#[cfg(test)]
mod tests;

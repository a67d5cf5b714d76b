//! Drills whose numbers another program gave.
ghost use Rattle.std.specs.Prelude.{◌<◌, ◌^◌};

use link_base::{MemSink, NoMemory};
use link_drill::drill_number;
use link_run_feed::Status;
use std::alloc::Global;
use std::test::Fail;

/// What is written of the first number.
const FIRST: &str = "drill 0 option 1 samples 1024 equal 960 marked 64 lost 4 repeated 2\n";

/// What is written of the last one.
const LAST: &str =
    "drill 2147483647 option 5 samples 8192 equal 7808 marked 384 lost 3 repeated 4\n";

// What a drill writes, where nothing fails.
fn text_of(alloc: Global, number: u32) -> Result<Vec<u8>, NoMemory>
    requires { number < 2 ^ 31 }
{
    let mut out = MemSink::new(alloc, 256, 256)?;
    match drill_number(alloc, number, &mut out) {
        Status::NoMemory => Err(NoMemory),
        _ => Ok(Vec::from_slice(alloc, out.octets())?),
    }
}

#[test]
fn drills_are_those_of_another_program(rt: HostRuntime) -> Result<(), Fail> {
    let first = text_of(rt.alloc(), 0)?;
    assert_eq!(rt; first.as_slice(), FIRST.as_bytes());
    let last = text_of(rt.alloc(), 2_147_483_647)?;
    assert_eq!(rt; last.as_slice(), LAST.as_bytes());
    Ok(())
}

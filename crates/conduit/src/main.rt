//! The program `conduit`.
#![tactic(auto)]

use cd_cli::conduit_main;
use cd_host::HostWorld;
use std::io::ErrorKind;
use std::process::ExitCode;
use std::rt::Files;
use std::{env, fs, io};

/// The status where the words cannot be read.
const USAGE: u8 = 2;

/// The status where a call on the outside failed.
const FAILED: u8 = 7;

/// The status where there is no memory.
const OUT_OF_MEMORY: u8 = 9;

/// A device that is always at its end, and that nothing can be written to where it is open for reading.
const NULL_DEVICE: &str = "/dev/null";

/// Opens the null device three times, so that no file is opened under the number of a standard stream that was closed
/// when the program was started: a closed standard input is at its end, and a write to a closed output fails.
fn hold_streams<R: Files>(rt: &R) -> io::Result<[R::File; 3]> {
    let first = fs::open(rt, NULL_DEVICE)?;
    let second = fs::open(rt, NULL_DEVICE)?;
    let third = fs::open(rt, NULL_DEVICE)?;
    Ok([first, second, third])
}

fn main(rt: HostRuntime) -> ExitCode {
    let Ok(streams) = hold_streams(&rt) else {
        return ExitCode::from(FAILED);
    };
    let status = run(&rt);
    drop(streams);
    ExitCode::from(status)
}

/// Runs the command, and answers its status.
fn run(rt: &HostRuntime) -> u8 {
    let words = match env::args(rt) {
        Ok(words) => words,
        Err(error) if error.kind() == ErrorKind::OutOfMemory => {
            return OUT_OF_MEMORY;
        }
        Err(_) => return USAGE,
    };
    let Ok(words) = words.skip(1).collect::<Vec<String>>(rt.alloc()) else {
        return OUT_OF_MEMORY;
    };
    let mut world = HostWorld::new(rt.alloc(), rt);
    conduit_main(rt.alloc(), &words, &mut world).status
}

//! Two engines on one session, which is read from standard input: each command is tried out on the market of desks, then given to
//! it, and each answer compared with that of the plain market. What is tried out leaves all answers of all desks as they were.
//!
//! Printed is how many commands of each kind were done and refused, or the first difference.
#![tactic(auto)]

mod answers;
mod comparing;
mod journal;
mod kinds;

use crate::comparing::compare_on;
use crate::kinds::{KINDS, Tallies};
use outside::ReadSource;
use session_io::{LONGEST_SESSION, read_all};
use std::process::ExitCode;

fn main(rt: HostRuntime) -> ExitCode {
    let alloc = rt.alloc();
    let mut source = ReadSource::new(rt.reader());
    let Ok(text) = read_all(alloc, &mut source, LONGEST_SESSION) else {
        return ExitCode::FAILURE;
    };
    match compare_on(alloc, text.as_slice()) {
        Ok(tallies) => print(&rt, &tallies),
        Err(difference) => {
            let _ = println!(rt; "{difference:?}");
            ExitCode::FAILURE
        }
    }
}

// Prints how many commands of each kind were done and refused.
fn print(rt: &HostRuntime, tallies: &Tallies) -> ExitCode {
    for (kind, tally) in KINDS.iter().zip(tallies.iter()) {
        let done = tally.done;
        let refused = tally.refused;
        if println!(rt; "{kind}: {done} done, {refused} refused").is_err() {
            return ExitCode::FAILURE;
        }
    }
    ExitCode::SUCCESS
}

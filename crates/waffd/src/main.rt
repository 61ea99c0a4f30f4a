//! Trusted: `waffd`, a server for messages about files of 512-byte blocks, as a program.
#![tactic(auto)]

mod streams;

use commands::{command, report_unreadable_arguments};
use std::process::ExitCode;
use std::{env, io};
use streams::reserve_standard_descriptors;

/// The arguments that the program was called with, its own name first.
fn program_arguments(rt: &HostRuntime) -> io::Result<Vec<String>> {
    let arguments = env::args(rt)?.collect(rt.alloc())?;
    Ok(arguments)
}

fn main(rt: HostRuntime) -> ExitCode {
    let _kept_to_the_end = reserve_standard_descriptors(&rt);
    let status = match program_arguments(&rt) {
        Ok(arguments) => command(
            &rt,
            rt.alloc(),
            arguments.as_slice(),
            &mut rt.stdin(),
            &mut rt.stdout(),
            &mut rt.stderr(),
        ),
        Err(error) => report_unreadable_arguments(&error, &mut rt.stderr()),
    };
    ExitCode::from(status)
}

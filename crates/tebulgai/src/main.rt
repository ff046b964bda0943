// Values for the overrides of a shader module: packed, unpacked, and turned into literals.
#![tactic(auto)]

mod commands;
mod failures;
mod files;
mod help;

use commands::run;
use std::process::ExitCode;

fn main(rt: HostRuntime) -> ExitCode {
    match run(&rt) {
        Ok(()) => ExitCode::SUCCESS,
        Err(failure) => {
            let _ = eprintln!(rt; "tebulgai: {failure}");
            ExitCode::FAILURE
        }
    }
}

//! The program `ldframes`: `main` makes the real streams and runs its words on a thread of its own,
//! for its stack.
#![tactic(auto)]

use lf_app::{NO_MEMORY, STACK_BYTES, run_program};
use std::process::ExitCode;
use std::thread::Builder;

fn main(rt: HostRuntime) -> ExitCode {
    let work = Builder::new()
        .stack_size(STACK_BYTES)
        .spawn(&rt, move || run_program(&rt, rt.stdin(), rt.stdout()));
    match work {
        Ok(work) => work.join(&rt),
        Err(_) => ExitCode::from(NO_MEMORY),
    }
}

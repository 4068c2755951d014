//! The program `jsearch`: its arguments, standard input and standard output, given to the top call.
//!
//! It promises nothing of its own; all that can be wrong stands in search_main.
#![tactic(auto)]

use jx_io::{StdSink, StdSource};
use search_main::run_process;
use std::env;
use std::process::ExitCode;

fn main(rt: HostRuntime) -> ExitCode {
    let arguments = env::args(&rt);
    let status = run_process(
        rt.alloc(),
        arguments,
        &mut StdSource::new(&rt),
        &mut StdSink::new(&rt),
    );
    ExitCode::from(status)
}

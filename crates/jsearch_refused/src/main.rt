//! The program `jsearch` again, for a stored run that is refused: a crate has one stored run, and that of
//! crate jsearch succeeds. A script that ends in the middle of a line ends it with status 1.
#![tactic(auto)]

use jx_io::{StdSink, StdSource};
use search_main::run_process;
use std::env;
use std::process::ExitCode;

fn main(rt: HostRuntime) -> ExitCode {
    let arguments = env::args(&rt);
    let status = run_process(
        rt.alloc(),
        arguments,
        &mut StdSource::new(&rt),
        &mut StdSink::new(&rt),
    );
    ExitCode::from(status)
}

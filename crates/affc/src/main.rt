//! affc folds the temporary arrays of affine loop nests onto small buffers, tells their dataflow, and runs programs.
#![tactic(auto)]

use affc_cli::serve::answered;
use affc_io::{StdFolder, StdSink};
use std::process::ExitCode;
use std::{env, io};

// The program's name and the words behind it.
fn arguments(rt: &HostRuntime) -> io::Result<Vec<String>> {
    let mut words = Vec::new(rt.alloc());
    for word in env::args(rt)? {
        words.push(word)?;
    }
    Ok(words)
}

fn main(rt: HostRuntime) -> ExitCode {
    let mut out = StdSink::new(rt.stdout());
    let mut err = StdSink::new(rt.stderr());
    let words = arguments(&rt);
    answered(
        rt.alloc(),
        words,
        &mut StdFolder::new(rt),
        &mut out,
        &mut err,
    )
}

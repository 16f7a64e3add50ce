//! The program: the words that it was given, the files of the system, and the two standard streams.
#![tactic(auto)]

use cd_base::real_files::RealFiles;
use cd_base::real_sink::RealSink;
use cd_driver::exit::exit_on;
use std::process::ExitCode;
use std::{env, io};

fn main(rt: HostRuntime) -> ExitCode {
    let mut files = RealFiles::new(rt.alloc(), rt);
    let mut out = RealSink::output(rt.stdout());
    let mut err = RealSink::errors(rt.stderr());
    exit_on(rt.alloc(), words(&rt), &mut files, &mut out, &mut err)
}

// The arguments without the program's name.
fn words(rt: &HostRuntime) -> io::Result<Vec<String>> {
    let mut words = Vec::new(rt.alloc());
    for word in env::args(rt)?.skip(1) {
        words.push(word)?;
    }
    Ok(words)
}

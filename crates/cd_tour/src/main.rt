//! Puts the rows of data of its folder to the top call, and then shows a tour of `sub`, `member`,
//! `check` and `run` for those who work with documents: queries, each with its answer and what that
//! means. How rows are written is in `cd_trials`.
#![tactic(auto)]

mod line;
mod queries;
mod rows;
mod showing;
mod versions;

use anyhow::Result;
use cd_base::real_files::RealFiles;
use cd_base::real_sink::RealSink;
use cd_trials::put_all;
use queries::{OF_VERSIONS, QUERIES};
use rows::Cduce;
use showing::show_all;
use std::process::ExitCode;
use versions::both_versions;

fn main(rt: HostRuntime) -> Result<ExitCode> {
    let alloc = rt.alloc();
    let tally = put_all(&rt, &Cduce)?;
    let mut files = RealFiles::new(alloc, rt);
    let mut out = RealSink::output(rt.stdout());
    // What is put to errors belongs to the tour too.
    let mut err = RealSink::output(rt.stdout());
    show_all(alloc, &QUERIES, &mut files, &mut out, &mut err)?;
    let mut versions = both_versions(alloc, &mut files)?;
    show_all(alloc, &OF_VERSIONS, &mut versions, &mut out, &mut err)?;
    Ok(ExitCode::from(u8::from(tally.differ != 0)))
}

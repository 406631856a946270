//! The program `viewer_main DIR WORDS..`: does what the words say over the files of the folder `DIR`. Rasters go to
//! standard output, and lines to standard error. It ends with the status of the run.
#![tactic(auto)]

mod arguments;

use arguments::{Arguments, read_arguments};
use djvu_base::CountMeter;
use djvu_outside::{DirFolder, Status, WriteSink};
use std::alloc::AllocError;
use std::process::ExitCode;
use viewer_run::run;

fn main(rt: HostRuntime) -> ExitCode {
    match start(&rt) {
        Ok(status) => ExitCode::from(status.0),
        Err(_) => ExitCode::from(Status::NO_MEMORY.0),
    }
}

/// Runs over the real folder and the standard streams. Where `DIR` is missing, the words are empty. A `DIR` that isn't
/// UTF-8 is a folder that can't be listed.
fn start(rt: &HostRuntime) -> Result<Status, AllocError> {
    let alloc = rt.alloc();
    let Arguments { folder, words } = read_arguments(rt, alloc)?;
    let path = std::str::from_utf8(folder.slice()).unwrap_or("");
    let mut folder = DirFolder::new(rt.clone()?, alloc, path)?;
    let mut out = WriteSink::new(rt.stdout());
    let mut report = WriteSink::new(rt.stderr());
    let mut meter = CountMeter::new();
    Ok(run(
        alloc,
        words.as_slice(),
        &mut folder,
        &mut out,
        &mut report,
        &mut meter,
    ))
}

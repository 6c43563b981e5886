//! The program: plans for time-triggered wireless control.
#![tactic(auto)]

mod bodies;
mod checking;
#[cfg(test)]
mod drill_tests;
mod drilling;
#[cfg(test)]
mod drop_tests;
mod ending;
mod fault_lines;
mod guarding;
#[cfg(test)]
mod hostile_tests;
pub mod laws;
mod planning;
mod program;
#[cfg(test)]
mod replay_tests;
mod replaying;
mod script_files;
mod tables;
#[cfg(test)]
mod tests;

pub use file_answers::Status;
pub use program::run;
use std::alloc::AllocError;
use std::env;
use std::io::ErrorKind;
use std::process::ExitCode;
use task_body::{Hold, Tally, TaskBody};
use ttw_io::{DiskFiles, StdSink};

/// The words after the program's name. Where one is not text there are none.
fn words(rt: &HostRuntime) -> Result<Vec<String>, AllocError> {
    match env::args(rt) {
        Ok(args) => args.skip(1).collect(rt.alloc()),
        Err(error) => {
            if error.kind() == ErrorKind::OutOfMemory {
                Err(AllocError)
            } else {
                Ok(Vec::new(rt.alloc()))
            }
        }
    }
}

/// Does what the words of the command line say, over the files of the machine and standard output.
fn run_words(rt: HostRuntime) -> Result<Status, AllocError> {
    let alloc = rt.alloc();
    let words = words(&rt)?;
    let words: Vec<&str> = words.iter().map(|word| word.as_str()).collect(alloc)?;
    let mut files = DiskFiles::make(alloc, rt.clone()?)?;
    let mut out = StdSink::make(rt);
    let mut bodies: Vec<Box<dyn TaskBody>> = Vec::new(alloc);
    bodies.push(Box::new(alloc, Tally::make(alloc)?)?)?;
    bodies.push(Box::new(alloc, Hold::make(alloc)?)?)?;
    Ok(run(alloc, words.as_slice(), &mut files, &mut out, bodies))
}

fn main(rt: HostRuntime) -> ExitCode {
    let status = run_words(rt).unwrap_or(Status::Memory);
    ExitCode::from(status.code())
}

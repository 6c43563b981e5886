//! The program that draws an accepted plan.
#![tactic(auto)]

mod charts;
mod drawing;
mod node_lanes;
mod rounds_lane;
#[cfg(test)]
mod tests;
mod texts;
mod windows_lane;

pub use drawing::draw;
pub use file_answers::Status;
use std::alloc::AllocError;
use std::env;
use std::io::ErrorKind;
use std::process::ExitCode;
use ttw_io::{DiskFiles, StdSink};

/// The words after the program's name. Where one is not text there are none.
fn words(rt: &HostRuntime) -> Result<Vec<String>, AllocError> {
    match env::args(rt) {
        Ok(args) => args.skip(1).collect(rt.alloc()),
        Err(error) => {
            if error.kind() == ErrorKind::OutOfMemory {
                Err(AllocError)
            } else {
                Ok(Vec::new(rt.alloc()))
            }
        }
    }
}

/// Draws what the words of the command line name, over the files of the machine and standard output.
fn draw_words(rt: HostRuntime) -> Result<Status, AllocError> {
    let alloc = rt.alloc();
    let words = words(&rt)?;
    let words: Vec<&str> = words.iter().map(|word| word.as_str()).collect(alloc)?;
    let mut files = DiskFiles::make(alloc, rt.clone()?)?;
    let mut out = StdSink::make(rt);
    Ok(draw(alloc, words.as_slice(), &mut files, &mut out))
}

fn main(rt: HostRuntime) -> ExitCode {
    let status = draw_words(rt).unwrap_or(Status::Memory);
    ExitCode::from(status.code())
}

//! The program `explain`: the words of the command line, the file that they name or standard input, standard output,
//! and standard error for how far the search of `break` is. Its top call, `exit_number`, does all the work, over any
//! source and sinks.
//!
//! Below stand `explain_words`, which tells what the words ask for and the file's name, `explain_decks`, and `gd_io`
//! with the ends.
#![tactic(auto)]

pub mod ending;
mod entry;

use crate::entry::exit_number;
use explain_words::file_asked;
use gd_io::{StdSink, StdSource};
use gd_words::NoMemory;
use std::alloc::{AllocError, AllocGlobal};
use std::process::ExitCode;
use std::rt::Env;
use std::{env, fs, io};

/// The number with which the program ends where the memory for its words is wanting.
const NO_MEMORY: u8 = 8;

/// The number with which it ends where the file that the words name can't be opened.
const READ_FAULT: u8 = 6;

/// The words that the program is called with, its name first. Where one isn't UTF-8 there are none, which ask for
/// nothing.
fn called_words<R: Env + AllocGlobal>(rt: &R) -> Result<Vec<String>, NoMemory> {
    match env::args(rt) {
        Ok(words) => Ok(words.collect(rt.alloc())?),
        Err(error) => match error.kind() {
            io::ErrorKind::OutOfMemory => Err(NoMemory::from(AllocError)),
            _ => Ok(Vec::new(rt.alloc())),
        },
    }
}

fn main(rt: HostRuntime) -> ExitCode {
    let Ok(words) = called_words(&rt) else {
        return ExitCode::from(NO_MEMORY);
    };
    let Ok(file) = file_asked(rt.alloc(), words.as_slice()) else {
        return ExitCode::from(NO_MEMORY);
    };
    let mut sink = StdSink::new(rt.stdout());
    let mut progress = StdSink::new(rt.stderr());
    match file {
        None => {
            let mut source = StdSource::new(rt.stdin());
            let number = exit_number(
                rt.alloc(),
                words.as_slice(),
                &mut source,
                &mut sink,
                &mut progress,
            );
            ExitCode::from(number)
        }
        Some(path) => match fs::open(&rt, path) {
            Err(_) => ExitCode::from(READ_FAULT),
            Ok(opened) => {
                let mut source = StdSource::new(opened);
                let number = exit_number(
                    rt.alloc(),
                    words.as_slice(),
                    &mut source,
                    &mut sink,
                    &mut progress,
                );
                ExitCode::from(number)
            }
        },
    }
}

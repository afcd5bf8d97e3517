//! The program `pyxrun`: the words of its command line, over the files and the standard streams.
#![tactic(auto)]

use px_base::{FolderLibrary, InputSource, NoMemory, OpenGate, OutputSink, Status};
use px_cli::{cython_main, tell_no_memory};
use std::env;
use std::io::ErrorKind;
use std::process::ExitCode;

fn main(rt: HostRuntime) -> ExitCode {
    ExitCode::from(run(&rt) as u8)
}

/// Runs the command line that the system gives.
fn run(rt: &HostRuntime) -> Status {
    let mut err = OutputSink::new(rt.stderr());
    match command_words(rt) {
        Ok(words) => {
            let mut library = FolderLibrary::new(*rt);
            let mut input = InputSource::new(rt.stdin());
            let mut out = OutputSink::new(rt.stdout());
            let report = cython_main(
                rt.alloc(),
                words.as_slice(),
                &mut library,
                &mut input,
                &mut out,
                &mut err,
                &OpenGate,
            );
            report.status
        }
        Err(NoMemory) => tell_no_memory(&mut err),
    }
}

/// The words behind the program's name. Words that aren't all UTF-8 are no command line, as no words are.
///
/// # Errors
/// `NoMemory` where there is no memory for them.
fn command_words(rt: &HostRuntime) -> Result<Vec<String>, NoMemory> {
    let mut words = Vec::new(rt.alloc());
    match env::args(rt) {
        Ok(args) => {
            for word in args.skip(1) {
                words.push(word)?;
            }
            Ok(words)
        }
        Err(error) => match error.kind() {
            ErrorKind::OutOfMemory => Err(NoMemory),
            _ => Ok(words),
        },
    }
}

//! Rows of whole calls over an outside in memory. A text is the module `m.pyx` of the library; what is given is the status, and what the
//! output and the errors took.
use crate::rows::{Row, Unjudged};
use crate::scripted_sinks::ScriptedSink;
use px_base::{
    Bytes, Files, Library, LibraryTrouble, MemoryLibrary, MemorySink, MemorySource, Numbers,
    OpenGate, Sink,
};
use px_cli::{check_main, cython_main};
use std::alloc::Global;

/// The words of a command line, of which an empty one stands as `''`.
fn words_of(row: &mut Row, line: &str) -> Vec<String> {
    let mut words = Vec::new(row.alloc());
    for word in line.split_whitespace() {
        let text = row.owned(if word == "''" { "" } else { word });
        if words.push(text).is_err() {
            row.leave(Unjudged::NoMemory);
        }
    }
    words
}

/// A library that holds this module under the name `m.pyx`, and whose calls with these numbers fail.
fn library_of(row: &mut Row, module: Bytes, failing: Numbers) -> MemoryLibrary {
    let mut files = Files::new(row.alloc());
    let name = row.owned("m.pyx");
    let pushed = files.push((name, module));
    row.keep(pushed);
    MemoryLibrary::new(files, failing)
}

/// A sink that tells what it took.
trait Taking: Sink {
    /// The bytes that were taken.
    fn taken_bytes(&self) -> &[u8];
}

impl Taking for MemorySink {
    fn taken_bytes(&self) -> &[u8] {
        self.bytes().as_slice()
    }
}

impl<'a> Taking for ScriptedSink<'a> {
    fn taken_bytes(&self) -> &[u8] {
        self.bytes()
    }
}

/// The call to which a command line is given.
#[derive(Clone, Copy)]
pub enum TopCall {
    /// That which serves all commands.
    Cython,
    /// That which serves none that run a module.
    Check,
}

/// Gives a command line to a call, and gives its status and what the sinks took.
fn call<L: Library, S: Taking>(
    row: &mut Row,
    top: TopCall,
    line: &str,
    library: &mut L,
    out: &mut S,
    err: &mut S,
) {
    let alloc = row.alloc();
    let words = words_of(row, line);
    let mut input = MemorySource::new(Bytes::new(alloc), 1, Numbers::new(alloc));
    let words = words.as_slice();
    let report = match top {
        TopCall::Cython => cython_main(alloc, words, library, &mut input, out, err, &OpenGate),
        TopCall::Check => check_main(alloc, words, library, &mut input, out, err),
    };
    row.whole_number(report.status as u8 as i128);
    row.word("|");
    row.spell(out.taken_bytes());
    row.word("|");
    row.spell(err.taken_bytes());
}

/// The same over empty sinks that take all.
fn call_calmly<L: Library>(row: &mut Row, top: TopCall, line: &str, library: &mut L) {
    let alloc = row.alloc();
    let mut out = MemorySink::new(alloc, usize::MAX, Numbers::new(alloc));
    let mut err = MemorySink::new(alloc, usize::MAX, Numbers::new(alloc));
    call(row, top, line, library, &mut out, &mut err);
}

/// A call: its words; a text, and how many `#` stand behind it; the numbers of the calls of the library, the output and the errors that
/// fail; the most bytes that a write takes; and what is given.
pub fn command_row(row: &mut Row, top: TopCall) {
    let line = row.field();
    let mut module = row.bytes();
    for _ in 0..row.number() {
        let pushed = module.push(b'#');
        row.keep(pushed);
    }
    let failing = row.numbers();
    let mut library = library_of(row, module, failing);
    let failing_out = row.numbers();
    let failing_err = row.numbers();
    let piece = row.size();
    let mut out = MemorySink::new(row.alloc(), piece, failing_out);
    let mut err = MemorySink::new(row.alloc(), piece, failing_err);
    call(row, top, line, &mut library, &mut out, &mut err);
}

/// Reads a text, and makes it a library that never fails.
fn module_library(row: &mut Row) -> MemoryLibrary {
    let module = row.bytes();
    let failing = Numbers::new(row.alloc());
    library_of(row, module, failing)
}

/// A text that is run, and what is given.
pub fn run_row(row: &mut Row) {
    let mut library = module_library(row);
    call_calmly(row, TopCall::Cython, "run m.pyx", &mut library);
}

/// A text that is checked, and what is given.
pub fn check_row(row: &mut Row) {
    let mut library = module_library(row);
    call_calmly(row, TopCall::Check, "check m.pyx", &mut library);
}

/// A text whose code is listed, and what is given.
pub fn list_row(row: &mut Row) {
    let mut library = module_library(row);
    call_calmly(row, TopCall::Check, "list m.pyx", &mut library);
}

/// A text that is run, the scripts of the output and of the errors, and what is given.
pub fn scripted_row(row: &mut Row) {
    let mut library = module_library(row);
    let mut out = ScriptedSink::of_row(row);
    let mut err = ScriptedSink::of_row(row);
    call(
        row,
        TopCall::Cython,
        "run m.pyx",
        &mut library,
        &mut out,
        &mut err,
    );
}

/// A library that has no memory for its answers.
#[derive(Clone, Copy)]
struct StarvedLibrary;

impl Library for StarvedLibrary {
    ghost use Rattle.std.specs.Prelude.{None};

    ghost holds = { λ _. None };

    ghost faults = { λ _. 0 };

    fn module(&mut self, _alloc: Global, _name: &str) -> Result<Option<Bytes>, LibraryTrouble> {
        Err(LibraryTrouble::NoMemory)
    }
}

/// A call whose library has no memory: its words, and what is given.
pub fn starved_row(row: &mut Row) {
    let line = row.field();
    call_calmly(row, TopCall::Cython, line, &mut StarvedLibrary);
}

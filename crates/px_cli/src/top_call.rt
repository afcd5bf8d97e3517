ghost use Rattle.std.specs.Prelude.{◌≡◌, [], ◌∷◌, map, string_bytes};
ghost use Rattle.px_base.specs.Outside.{Grows};
ghost use Rattle.px_cli.specs.Answer.{Facts, IsAnswer, IsCalm, IsReport, Taking, TookAll, facts_of, no_memory_line, taking_of};
ghost use Rattle.px_cli.specs.Words.{all_commands, checking_commands};

use crate::replies::{Reply, reply_to};
use crate::words::{Command, file_for};
use crate::writing::{Wrote, write_whole};
use px_base::{Gate, Library, NoMemory, Sink, Source, Status};
use std::alloc::Global;

/// What a call of the program tells beside the bytes that it wrote.
#[derive(Clone, Copy, PartialEq, Eq)]
pub struct Report {
    pub status: Status,
}

/// Answers a command line: `check FILE` and `list FILE` by `check_main`, and `run FILE`, which reads the module FILE from the library,
/// runs it and writes what it prints on `out`; all other words are no command line.
///
/// The output is kept and written at the end, then a line on `err` for each status but 0 and 6. After a write that fails
/// nothing more is written, and the status is that of a broken sink. Neither the input nor the gate is used.
pub fn cython_main<L: Library, I: Source, O: Sink, E: Sink, G: Gate>(
    alloc: Global,
    words: &[String],
    library: &mut L,
    input: &mut I,
    out: &mut O,
    err: &mut E,
    _gate: &G,
) -> Report
    ensures unread { (I.left input.new ≡ I.left input.old) × (I.faults input.new ≡ I.faults input.old) }
    ensures answer { IsReport
        (facts_of all_commands (map string_bytes words.now) (L.holds library.old) (L.faults library.old) (L.faults library.new))
        result.status
        (taking_of (O.taken out.old) (O.taken out.new) (O.faults out.old) (O.faults out.new))
        (taking_of (E.taken err.old) (E.taken err.new) (E.faults err.old) (E.faults err.new)) }
{
    match file_for(Command::Run, words) {
        Some(_) => report_of(alloc, Command::Run, words, library, out, err),
        None => check_main(alloc, words, library, input, out, err),
    }
}

/// Answers a command line without a run: `check FILE` reads the module FILE from the library, and writes `ok` and a line end on `out`
/// where it is accepted; `list FILE` writes the listing of its code; all other words are no command line here.
///
/// What is written, and when, is as in `cython_main`.
pub fn check_main<L: Library, I: Source, O: Sink, E: Sink>(
    alloc: Global,
    words: &[String],
    library: &mut L,
    _input: &mut I,
    out: &mut O,
    err: &mut E,
) -> Report
    ensures unread { (I.left _input.new ≡ I.left _input.old) × (I.faults _input.new ≡ I.faults _input.old) }
    ensures answer { IsReport
        (facts_of checking_commands (map string_bytes words.now) (L.holds library.old) (L.faults library.old) (L.faults library.new))
        result.status
        (taking_of (O.taken out.old) (O.taken out.new) (O.faults out.old) (O.faults out.new))
        (taking_of (E.taken err.old) (E.taken err.new) (E.faults err.old) (E.faults err.new)) }
{
    match file_for(Command::List, words) {
        Some(_) => report_of(alloc, Command::List, words, library, out, err),
        None => report_of(alloc, Command::Check, words, library, out, err),
    }
}

/// Answers the words of one command, and all other words as no command line.
fn report_of<L: Library, O: Sink, E: Sink>(
    alloc: Global,
    command: Command,
    words: &[String],
    library: &mut L,
    out: &mut O,
    err: &mut E,
) -> Report
    ensures { IsReport
        (facts_of (command ∷ []) (map string_bytes words.now) (L.holds library.old) (L.faults library.old) (L.faults library.new))
        result.status
        (taking_of (O.taken out.old) (O.taken out.new) (O.faults out.old) (O.faults out.new))
        (taking_of (E.taken err.old) (E.taken err.new) (E.faults err.old) (E.faults err.new)) }
{
    let status = match reply_to(alloc, command, words, library) {
        Ok(reply) => deliver(&reply, out, err),
        Err(NoMemory) => tell_no_memory(err),
    };
    Report { status }
}

/// Writes a reply, the output first; after a write that fails only the line of want of memory is tried.
fn deliver<O: Sink, E: Sink>(reply: &Reply, out: &mut O, err: &mut E) -> Status
    ensures { (facts : Facts) → IsAnswer facts reply.now.status reply.now.output reply.now.line → IsReport facts result
        (taking_of (O.taken out.old) (O.taken out.new) (O.faults out.old) (O.faults out.new))
        (taking_of (E.taken err.old) (E.taken err.new) (E.faults err.old) (E.faults err.new)) }
{
    match write_whole(out, reply.output.as_slice()) {
        Wrote::All => write_line(reply, err),
        Wrote::Fault => Status::WriteFault,
        Wrote::NoMemory => tell_no_memory(err),
    }
}

/// Writes the line of a reply whose output is written.
fn write_line<E: Sink>(reply: &Reply, err: &mut E) -> Status
    ensures { (facts : Facts) (out : Taking) → IsAnswer facts reply.now.status reply.now.output reply.now.line →
        TookAll out reply.now.output → IsCalm out → IsReport facts result out
        (taking_of (E.taken err.old) (E.taken err.new) (E.faults err.old) (E.faults err.new)) }
{
    match write_whole(err, reply.line.as_slice()) {
        Wrote::All => reply.status,
        Wrote::Fault => Status::WriteFault,
        Wrote::NoMemory => tell_no_memory(err),
    }
}

/// Tries the line of want of memory, once.
pub fn tell_no_memory<E: Sink>(err: &mut E) -> Status
    ensures status { result ≡ Status.NoMemory }
    ensures line { Grows (E.taken err.old) (E.taken err.new) no_memory_line }
{
    let _ = write_whole(err, b"out of memory\n");
    Status::NoMemory
}

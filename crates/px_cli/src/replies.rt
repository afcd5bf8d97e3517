ghost use Rattle.std.specs.Prelude.{◌≡◌, [], ◌∷◌, ℕ, List, IfOk, map, string_bytes};
ghost use Rattle.px_base.specs.Lines.{refusal_text};
ghost use Rattle.px_cli.specs.Answer.{IsAnswer, facts_of, no_file_line};
ghost use Rattle.px_cli.specs.LineEnds.{with_line_end};
ghost use Rattle.px_cli.specs.ModuleAnswer.{IsModuleAnswer};
ghost use Rattle.px_cli.specs.Words.{Asks};

use crate::phases::output_of;
use crate::words::{Command, file_for};
use px_base::{
    Bytes, Library, LibraryTrouble, NoMemory, Refusal, Status, Trouble, refusal_line, utf8,
};
use std::alloc::Global;

/// The greatest number of bytes of a module.
const MODULE_LIMIT: usize = 1_048_576;

const USAGE: &[u8] =
    b"usage: pyxrun check FILE | list FILE | run FILE [--threads=T] [--turns=N] [--buffers] | simulate FILE --threads=T --seed=S [--turns=N] | generate SEED SIZE";

/// A status, and what is written on the standard output and the standard error where no sink fails.
#[derive(Drop)]
pub struct Reply {
    pub status: Status,
    pub output: Bytes,
    pub line: Bytes,
}

/// The reply to the words of a command line, of a call that serves one command.
///
/// # Errors
/// `NoMemory` where there is no memory for it.
pub fn reply_to<L: Library>(
    alloc: Global,
    command: Command,
    words: &[String],
    library: &mut L,
) -> Result<Reply, NoMemory>
    ensures { IfOk result (λ reply. IsAnswer
        (facts_of (command ∷ []) (map string_bytes words.now) (L.holds library.old) (L.faults library.old) (L.faults library.new))
        reply.status reply.output reply.line) }
{
    match file_for(command, words) {
        Some(file) => reply_for_file(alloc, command, file, library),
        None => reply_of_line(alloc, Status::Usage, USAGE),
    }
}

fn reply_for_file<L: Library>(
    alloc: Global,
    command: Command,
    file: &str,
    library: &mut L,
) -> Result<Reply, NoMemory>
    ensures { IfOk result (λ reply. (words : List (List ℕ)) → Asks command words file.now → IsAnswer
        (facts_of (command ∷ []) words (L.holds library.old) (L.faults library.old) (L.faults library.new))
        reply.status reply.output reply.line) }
{
    match library.module(alloc, file) {
        Ok(Some(text)) => reply_for_module(alloc, command, file, text.as_slice()),
        Ok(None) => reply_of_no_file(alloc, file),
        Err(LibraryTrouble::Failed) => reply_of_line(alloc, Status::ReadFault, b"read fault"),
        Err(LibraryTrouble::NoMemory) => Err(NoMemory),
    }
}

fn reply_for_module(
    alloc: Global,
    command: Command,
    file: &str,
    text: &[u8],
) -> Result<Reply, NoMemory>
    ensures { IfOk result (λ reply. IsModuleAnswer command file.now text.now reply.status reply.output reply.line) }
{
    if text.len() > MODULE_LIMIT {
        return reply_of_line(alloc, Status::TooLarge, b"too large");
    }
    match output_of(alloc, command, text) {
        Ok(output) => Ok(Reply {
            status: Status::Done,
            output,
            line: Bytes::new(alloc),
        }),
        Err(Trouble::Refused(refusal)) => reply_of_refusal(alloc, file, &refusal),
        Err(Trouble::NoMemory) => Err(NoMemory),
    }
}

fn reply_of_refusal(alloc: Global, file: &str, refusal: &Refusal) -> Result<Reply, NoMemory>
    ensures { IfOk result (λ reply. reply ≡ record {
      status = Status.Refused;
      output = [];
      line = with_line_end (refusal_text file.now refusal.now);
    }) }
{
    let text = refusal_line(alloc, file, refusal)?;
    let mut line = utf8(alloc, &text)?;
    line.push(b'\n')?;
    Ok(Reply {
        status: Status::Refused,
        output: Bytes::new(alloc),
        line,
    })
}

fn reply_of_no_file(alloc: Global, file: &str) -> Result<Reply, NoMemory>
    ensures { IfOk result (λ reply. reply ≡ record { status = Status.NoFile; output = []; line = no_file_line file.now }) }
{
    let mut line = Bytes::from_slice(alloc, b"no such file: ")?;
    line.extend_from_slice(file.as_bytes())?;
    line.push(b'\n')?;
    Ok(Reply {
        status: Status::NoFile,
        output: Bytes::new(alloc),
        line,
    })
}

fn reply_of_line(alloc: Global, status: Status, text: &[u8]) -> Result<Reply, NoMemory>
    ensures { IfOk result (λ reply. reply ≡ record { status = status; output = []; line = with_line_end text.now }) }
{
    let mut line = Bytes::from_slice(alloc, text)?;
    line.push(b'\n')?;
    Ok(Reply {
        status,
        output: Bytes::new(alloc),
        line,
    })
}

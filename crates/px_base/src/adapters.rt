ghost use Rattle.std.specs.Prelude.{◌≡◌, ◌<◌, ◌≤◌, length, take, Ok, IfOk, IfSome, OnErr, OnOk, IsErrOf, IsFalse, ◌⊎◌};
ghost use Rattle.std.specs.Io.KnownBytes.{Keeps, IsAtEnd, prepend_known};
ghost use Rattle.px_base.specs.Outside.{Rose, ModuleIsCalm, Reads, Takes, WriteIsCalm, handed_limit};
ghost use Rattle.px_base.specs.Adapters.{AnswersOpened, answer_unopened, trouble_of_read, trouble_of_write, faults_of_module, faults_of_read, is_write_fault, faults_of_write};

use crate::outside::{
    Gate, HANDED_LIMIT, Library, LibraryTrouble, Point, Sink, SinkTrouble, Source,
};
use crate::refusals::Failed;
use crate::sequences::{Bytes, Sequence};
use std::alloc::Global;
use std::io::{ErrorKind, Read, Write};
use std::marker::Model;
use std::{fs, io, rt};

/// How many bytes of a file are read at a time.
const PIECE: usize = 4096;

/// How often a call is tried that a signal interrupts, and how many calls read a file.
const TRIES: usize = 1_048_577;

/// The files of the working folder and below it, each by its path from there. Contracts see its count of faults.
#[derive(Drop)]
pub struct FolderLibrary<R: rt::Files + Drop> {
    files: R,
    faults: u64,
}

impl<R: rt::Files + Drop> Model for FolderLibrary<R> {
    ghost use Rattle.std.specs.Prelude.{ℕ};

    ghost Value = { ℕ };

    ghost view = { λ library. library.faults };
}

impl<R: rt::Files + Drop> FolderLibrary<R> {
    pub fn new(files: R) -> FolderLibrary<R>
        ensures { result ≡ 0 }
    {
        FolderLibrary { files, faults: 0 }
    }
}

impl<R: rt::Files + Drop> Library for FolderLibrary<R> {
    ghost use Rattle.std.specs.Prelude.{None};

    ghost holds = { λ _. None };

    ghost faults = { λ faults. faults };

    /// `None` where the file isn't there, `Failed` where it can't be opened or read otherwise.
    fn module(&mut self, alloc: Global, name: &str) -> Result<Option<Bytes>, LibraryTrouble>
        ensures short { IfOk result (λ given. IfSome given (λ bytes. length bytes ≤ handed_limit)) }
        ensures later { self.old ≤ self.new }
        ensures cause { IsErrOf result LibraryTrouble.Failed → Rose self.old self.new }
        ensures calm { ModuleIsCalm self.old self.new result }

        ensures count { self.new ≡ faults_of_module self.old result }
    {
        let given = file_front(alloc, fs::open(&self.files, name));
        if let Err(LibraryTrouble::Failed) = given {
            self.faults = self.faults.saturating_add(1);
        }
        given
    }
}

/// What is given of a file, where this is what opening it answered.
fn file_front<F: Read + Drop>(
    alloc: Global,
    opened: io::Result<F>,
) -> Result<Option<Bytes>, LibraryTrouble>
    ensures short { IfOk result (λ given. IfSome given (λ bytes. length bytes ≤ handed_limit)) }
    ensures opened { AnswersOpened F.remaining opened result }
{
    match opened {
        Ok(mut file) => {
            let bytes = front(alloc, &mut file)?;
            Ok(Some(bytes))
        }
        Err(error) => answer_unopened(error.kind()),
    }
}

/// What is answered of a file that can't be opened, by the kind of the error.
fn answer_unopened(kind: ErrorKind) -> Result<Option<Bytes>, LibraryTrouble>
    ensures { result ≡ answer_unopened kind }
{
    match kind {
        ErrorKind::NotFound | ErrorKind::NotADirectory => Ok(None),
        ErrorKind::OutOfMemory => Err(LibraryTrouble::NoMemory),
        _ => Err(LibraryTrouble::Failed),
    }
}

/// The bytes of a stream, of more than the limit the first.
fn front<S: Read>(alloc: Global, stream: &mut S) -> Result<Bytes, LibraryTrouble>
    ensures short { IfOk result (λ bytes. length bytes ≤ handed_limit) }
    ensures front { IfOk result (λ bytes. IfSome (S.remaining stream.old) (λ all. bytes ≡ take handed_limit all)) }
{
    let mut bytes = Sequence::new(alloc);
    'pieces: for _ in 0..TRIES {
        if !has_more(stream, &mut bytes)? {
            return Ok(bytes);
        }
    }
    Err(LibraryTrouble::Failed)
}

/// Adds the next piece of a stream, and tells whether more may follow.
fn has_more<S: Read>(stream: &mut S, bytes: &mut Bytes) -> Result<bool, LibraryTrouble>
    requires { length bytes.old ≤ handed_limit }
    ensures short { length bytes.new ≤ handed_limit }
    ensures moved { IfOk result (λ _. Keeps (prepend_known bytes.old (S.remaining stream.old))
        (prepend_known bytes.new (S.remaining stream.new))) }
    ensures ended { IfOk result (λ more.
        IsFalse more → IsAtEnd (S.remaining stream.new) ⊎ (length bytes.new ≡ handed_limit)) }
{
    let mut buffer = [0u8; PIECE];
    let room = (HANDED_LIMIT - bytes.len()).min(PIECE);
    match stream.read(&mut buffer[..room]) {
        Ok(n) => {
            bytes.extend_from_slice(&buffer[..n])?;
            Ok(n > 0 && bytes.len() < HANDED_LIMIT)
        }
        Err(error) => match trouble_of_read(error.kind()) {
            Some(trouble) => Err(trouble),
            None => Ok(true),
        },
    }
}

/// What a failed read of a file comes to, by the kind of the error, or `None` where a signal interrupted it.
fn trouble_of_read(kind: ErrorKind) -> Option<LibraryTrouble>
    ensures { result ≡ trouble_of_read kind }
{
    match kind {
        ErrorKind::Interrupted => None,
        ErrorKind::OutOfMemory => Some(LibraryTrouble::NoMemory),
        _ => Some(LibraryTrouble::Failed),
    }
}

/// A stream that is read, such as the program's input.
#[derive(Drop)]
pub struct InputSource<S: Read + Drop> {
    stream: S,
    faults: u64,
}

impl<S: Read + Drop> Model for InputSource<S> {
    ghost use Rattle.px_base.specs.Adapters.{InputState};

    ghost Value = { InputState };

    ghost view = { λ source. record { left = S.remaining source.stream; faults = source.faults } };
}

impl<S: Read + Drop> InputSource<S> {
    pub fn new(stream: S) -> InputSource<S>
        ensures { result ≡ record { left = S.remaining stream; faults = 0 } }
    {
        InputSource { stream, faults: 0 }
    }
}

impl<S: Read + Drop> Source for InputSource<S> {
    ghost left = { λ source. source.left };

    ghost faults = { λ source. source.faults };

    fn read(&mut self, into: &mut [u8]) -> Result<usize, Failed>
        ensures bound { IfOk result (λ n. n ≤ length into.old) }
        ensures bytes { Reads self.old.left self.new.left result into.new }
        ensures later { self.old.faults ≤ self.new.faults }
        ensures cause { OnErr result (Rose self.old.faults self.new.faults) }
        ensures calm { OnOk result (self.new.faults ≡ self.old.faults) }

        ensures kept { OnErr result (Keeps self.old.left self.new.left) }
        ensures count { self.new.faults ≡ faults_of_read self.old.faults result }
    {
        let read = try_read(&mut self.stream, into);
        if read.is_err() {
            self.faults = self.faults.saturating_add(1);
        }
        read
    }
}

/// One read that no signal interrupts.
fn try_read<S: Read>(stream: &mut S, into: &mut [u8]) -> Result<usize, Failed>
    ensures bound { IfOk result (λ n. n ≤ length into.old) }
    ensures bytes { Reads (S.remaining stream.old) (S.remaining stream.new) result into.new }
    ensures kept { OnErr result (Keeps (S.remaining stream.old) (S.remaining stream.new)) }
{
    'tries: for _ in 0..TRIES {
        match stream.read(into) {
            Ok(n) => return Ok(n),
            Err(error) => {
                if !matches!(error.kind(), ErrorKind::Interrupted) {
                    return Err(Failed);
                }
            }
        }
    }
    Err(Failed)
}

/// A stream that is written, such as the program's output. It has no buffer: each write passes on the piece.
#[derive(Drop)]
pub struct OutputSink<W: Write + Drop> {
    stream: W,
    faults: u64,
}

impl<W: Write + Drop> Model for OutputSink<W> {
    ghost use Rattle.px_base.specs.Adapters.{OutputState};

    ghost Value = { OutputState };

    ghost view = { λ sink. record { taken = W.contents sink.stream; faults = sink.faults } };
}

impl<W: Write + Drop> OutputSink<W> {
    pub fn new(stream: W) -> OutputSink<W>
        ensures { result ≡ record { taken = W.contents stream; faults = 0 } }
    {
        OutputSink { stream, faults: 0 }
    }
}

impl<W: Write + Drop> Sink for OutputSink<W> {
    ghost taken = { λ sink. sink.taken };

    ghost faults = { λ sink. sink.faults };

    fn write(&mut self, piece: &[u8]) -> Result<usize, SinkTrouble>
        ensures bound { IfOk result (λ n. n ≤ length piece.now) }
        ensures bytes { Takes self.old.taken self.new.taken result piece.now }
        ensures later { self.old.faults ≤ self.new.faults }
        ensures cause { IsErrOf result SinkTrouble.Failed → Rose self.old.faults self.new.faults }
        ensures stall { result ≡ Ok 0 → 0 < length piece.now → Rose self.old.faults self.new.faults }
        ensures calm { WriteIsCalm self.old.faults self.new.faults piece.now result }

        ensures kept { OnErr result (Keeps self.old.taken self.new.taken) }
        ensures count { self.new.faults ≡ faults_of_write self.old.faults piece.now result }
    {
        let wrote = try_write(&mut self.stream, piece);
        if is_fault(&wrote, piece) {
            self.faults = self.faults.saturating_add(1);
        }
        wrote
    }
}

/// Whether a write failed, or took nothing of a piece that has some.
fn is_fault(wrote: &Result<usize, SinkTrouble>, piece: &[u8]) -> bool
    ensures { result ≡ is_write_fault piece.now wrote.now }
{
    match wrote {
        Ok(n) => *n == 0 && !piece.is_empty(),
        Err(SinkTrouble::Failed) => true,
        Err(SinkTrouble::NoMemory) => false,
    }
}

/// One write that no signal interrupts.
fn try_write<W: Write>(stream: &mut W, piece: &[u8]) -> Result<usize, SinkTrouble>
    ensures bound { IfOk result (λ n. n ≤ length piece.now) }
    ensures bytes { Takes (W.contents stream.old) (W.contents stream.new) result piece.now }
    ensures kept { OnErr result (Keeps (W.contents stream.old) (W.contents stream.new)) }
{
    'tries: for _ in 0..TRIES {
        match stream.write(piece) {
            Ok(n) => return Ok(n),
            Err(error) => {
                if let Some(trouble) = trouble_of_write(error.kind()) {
                    return Err(trouble);
                }
            }
        }
    }
    Err(SinkTrouble::Failed)
}

/// What a failed write comes to, by the kind of the error, or `None` where a signal interrupted it.
fn trouble_of_write(kind: ErrorKind) -> Option<SinkTrouble>
    ensures { result ≡ trouble_of_write kind }
{
    match kind {
        ErrorKind::Interrupted => None,
        ErrorKind::OutOfMemory => Some(SinkTrouble::NoMemory),
        _ => Some(SinkTrouble::Failed),
    }
}

/// The gate of the program, which holds nobody.
#[derive(Clone, Copy)]
pub struct OpenGate;

impl Gate for OpenGate {
    fn at(&self, _member: u32, _point: Point) {}
}

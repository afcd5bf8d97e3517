//! Rows of libraries, sources and sinks: what their calls answer, one after another.
use crate::rows::{Row, Unjudged};
use crate::scripted_streams::ScriptedStream;
use px_base::{
    Bytes, Failed, Files, FolderLibrary, InputSource, Library, LibraryTrouble, MemoryLibrary,
    MemorySink, MemorySource, OutputSink, Sink, SinkTrouble, Source,
};
use std::rt;

/// Gives what a library answers: the bytes between quotes, `none` where it holds no such module, or `failed`.
fn show_module(row: &mut Row, answer: Result<Option<Bytes>, LibraryTrouble>) {
    match answer {
        Ok(Some(bytes)) => {
            row.word("'");
            row.spell(bytes.as_slice());
            row.word("'");
        }
        Ok(None) => row.word("none"),
        Err(LibraryTrouble::Failed) => row.word("failed"),
        Err(LibraryTrouble::NoMemory) => row.leave(Unjudged::NoMemory),
    }
}

/// Reads files, each as `NAME=TEXT`, with commas between them.
fn files(row: &mut Row) -> Files {
    let mut files = Files::new(row.alloc());
    for file in row.field().split(',') {
        let (name, text) = file.split_once('=').unwrap_or(("", ""));
        if name.is_empty() {
            row.leave(Unjudged::NoRow);
        }
        let name = row.owned(name);
        let bytes = row.spelled(text);
        let pushed = files.push((name, bytes));
        row.keep(pushed);
    }
    files
}

/// A library in memory: its files; the numbers of its calls that fail; the names that it is asked for; and what it gives.
pub fn library_row(row: &mut Row) {
    let files = files(row);
    let mut library = MemoryLibrary::new(files, row.numbers());
    let mut is_first = true;
    for name in row.field().split(',') {
        row.separate(", ", is_first);
        show_module(row, library.module(row.alloc(), name));
        is_first = false;
    }
}

/// A name that the library of the working folder is asked for, and what it gives.
pub fn folder_row<R: rt::Files>(files: &R, row: &mut Row) {
    let mut library = FolderLibrary::new(files);
    let name = row.field();
    show_module(row, library.module(row.alloc(), name));
}

/// Gives what a read answers, with the buffer behind it.
fn show_read(row: &mut Row, read: Result<usize, Failed>, buffer: &[u8]) {
    match read {
        Ok(count) => row.whole_number(count as i128),
        Err(Failed) => row.word("failed"),
    }
    row.word(" ");
    row.spell(buffer);
}

/// Reads so many bytes to the start of a buffer, and gives the answer.
fn read<S: Source>(row: &mut Row, source: &mut S, buffer: &mut [u8], room: usize) {
    if room > buffer.len() {
        row.leave(Unjudged::NoRow);
        return;
    }
    let answer = source.read(&mut buffer[..room]);
    show_read(row, answer, buffer);
}

/// Reads to the start of a buffer of five bytes, and gives each answer with the buffer behind it. The row says the room of each read.
fn read_all<S: Source>(row: &mut Row, source: &mut S) {
    let mut buffer = *b".....";
    let mut is_first = true;
    for room in row.numbers().as_slice() {
        row.separate(", ", is_first);
        read(row, source, &mut buffer, *room as usize);
        is_first = false;
    }
}

/// A source in memory: its bytes; the most that a read moves; the numbers of its calls that fail; the reads; and what they answer.
pub fn source_row(row: &mut Row) {
    let bytes = row.bytes();
    let piece = row.size();
    let failing = row.numbers();
    let mut source = MemorySource::new(bytes, piece, failing);
    read_all(row, &mut source);
}

/// A stream of these bytes as a source: the reads, and what they answer.
pub fn input_row(row: &mut Row) {
    let bytes = row.bytes();
    let mut source = InputSource::new(bytes.as_slice());
    read_all(row, &mut source);
}

/// A stream with this script as a source: the reads, and what they answer.
pub fn scripted_input_row(row: &mut Row) {
    let mut source = InputSource::new(ScriptedStream::of_row(row));
    read_all(row, &mut source);
}

/// Gives what a write answers.
fn show_write(row: &mut Row, wrote: Result<usize, SinkTrouble>) {
    match wrote {
        Ok(count) => row.whole_number(count as i128),
        Err(SinkTrouble::Failed) => row.word("failed"),
        Err(SinkTrouble::NoMemory) => row.word("no memory"),
    }
}

/// Writes pieces, which the row says with commas between them, and gives each answer.
fn write_all<S: Sink>(row: &mut Row, sink: &mut S) {
    let mut is_first = true;
    for piece in row.field().split(',') {
        row.separate(", ", is_first);
        let piece = row.spelled(piece);
        show_write(row, sink.write(piece.as_slice()));
        is_first = false;
    }
}

/// A sink in memory: the most that a write moves; the numbers of its calls that fail; the pieces that are written; what the writes answer;
/// and the bytes that were taken.
pub fn sink_row(row: &mut Row) {
    let piece = row.size();
    let failing = row.numbers();
    let mut sink = MemorySink::new(row.alloc(), piece, failing);
    write_all(row, &mut sink);
    row.word("|");
    row.spell(sink.bytes().as_slice());
}

/// A stream with this script as a sink: the pieces that are written, and what the writes answer.
pub fn scripted_output_row(row: &mut Row) {
    let mut sink = OutputSink::new(ScriptedStream::of_row(row));
    write_all(row, &mut sink);
}

ghost use Rattle.std.specs.Prelude.{◌≡◌, ℕ, ◌+◌, ◌<◌, ◌≤◌, ◌↔◌, ◌++◌, [], Some, Ok, Err, min, map, take, drop, length, IsTrue, IsErr, IfOk, OnErr, OnOk, IfSome, IsErrOf, option_copied, option_map};
ghost use Rattle.px_base.specs.Outside.{Rose, Hands, ModuleIsCalm, Reads, Takes, WriteIsCalm, handed_limit};
ghost use Rattle.px_base.specs.Memory.{file_entry, content_of, one_more, next_fails, faults_after, count_moved};

use crate::outside::{HANDED_LIMIT, Library, LibraryTrouble, Sink, SinkTrouble, Source};
use crate::refusals::Failed;
use crate::sequences::{Bytes, Numbers, Sequence};
use std::alloc::{AllocError, Global};
use std::marker::Model;

/// Files by their names; of several with one name the first counts.
pub type Files = Sequence<(String, Bytes)>;

/// Counts calls and faults, and knows which calls are to fail.
#[derive(Drop)]
struct Calls {
    failing: Numbers,
    made: u64,
    failed: u64,
}

impl Calls {
    fn new(failing: Numbers) -> Calls
        ensures { result ≡ record { failing = failing; made = 0; failed = 0 } }
    {
        Calls {
            failing,
            made: 0,
            failed: 0,
        }
    }

    /// Counts a call, and a fault where this call is one of those that fail.
    fn next_fails(&mut self) -> bool
        ensures answer { result ≡ next_fails self.old.failing self.old.made }
        ensures counts { self.new ≡ record self.old {
          made = one_more self.old.made;
          failed = faults_after self.old.failing self.old.made self.old.failed;
        } }
        ensures later { self.old.failed ≤ self.new.failed }
    {
        self.made = self.made.saturating_add(1);
        let fails = self.failing.as_slice().contains(&self.made);
        if fails {
            self.failed = self.failed.saturating_add(1);
        }
        fails
    }
}

/// A library in memory.
#[derive(Drop)]
pub struct MemoryLibrary {
    files: Files,
    calls: Calls,
}

impl Model for MemoryLibrary {
    ghost use Rattle.std.specs.Prelude.{map};
    ghost use Rattle.px_base.specs.Memory.{LibraryState, file_entry};

    ghost Value = { LibraryState };

    ghost view = { λ library. record {
      files = map file_entry library.files;
      failing = library.calls.failing;
      calls = library.calls.made;
      faults = library.calls.failed;
    } };
}

impl MemoryLibrary {
    /// A library of these files, whose calls with the numbers in `failing`, counted from 1, fail.
    pub fn new(files: Files, failing: Numbers) -> MemoryLibrary
        ensures { result ≡ record { files = map file_entry files; failing = failing; calls = 0; faults = 0 } }
    {
        MemoryLibrary {
            files,
            calls: Calls::new(failing),
        }
    }
}

/// The bytes of the first file of this name.
fn find<'a>(files: &'a [(String, Bytes)], name: &str) -> Option<&'a Bytes>
    ensures { option_copied result ≡ content_of (map file_entry files.now) name.now }
{
    for (own, bytes) in files {
        if own.as_str() == name {
            return Some(bytes);
        }
    }
    None
}

/// What a library of these files hands over for a name.
fn file_front(
    alloc: Global,
    files: &[(String, Bytes)],
    name: &str,
) -> Result<Option<Bytes>, AllocError>
    ensures { IfOk result (λ given.
        given ≡ option_map (take handed_limit) (content_of (map file_entry files.now) name.now)) }
{
    match find(files, name) {
        None => Ok(None),
        Some(bytes) => {
            let n = HANDED_LIMIT.min(bytes.len());
            let front = Sequence::from_slice(alloc, &bytes.as_slice()[..n])?;
            Ok(Some(front))
        }
    }
}

impl Library for MemoryLibrary {
    ghost use Rattle.std.specs.Prelude.{Some};
    ghost use Rattle.px_base.specs.Memory.{content_of};

    ghost holds = { λ library. Some (content_of library.files) };

    ghost faults = { λ library. library.faults };

    fn module(&mut self, alloc: Global, name: &str) -> Result<Option<Bytes>, LibraryTrouble>
        ensures given { Hands (Some (content_of self.old.files)) name.now result }
        ensures short { IfOk result (λ given. IfSome given (λ bytes. length bytes ≤ handed_limit)) }
        ensures map { Some (content_of self.new.files) ≡ Some (content_of self.old.files) }
        ensures later { self.old.faults ≤ self.new.faults }
        ensures cause { IsErrOf result LibraryTrouble.Failed → Rose self.old.faults self.new.faults }
        ensures calm { ModuleIsCalm self.old.faults self.new.faults result }

        ensures failed { (result ≡ Err LibraryTrouble.Failed) ↔ IsTrue (next_fails self.old.failing self.old.calls) }
        ensures state { self.new ≡ record self.old {
          calls = one_more self.old.calls;
          faults = faults_after self.old.failing self.old.calls self.old.faults;
        } }
    {
        if self.calls.next_fails() {
            return Err(LibraryTrouble::Failed);
        }
        let given = file_front(alloc, self.files.as_slice(), name)?;
        Ok(given)
    }
}

/// A source in memory.
#[derive(Drop)]
pub struct MemorySource {
    bytes: Bytes,
    at: usize,
    piece: usize,
    calls: Calls,
}

impl Model for MemorySource {
    ghost use Rattle.std.specs.Prelude.{◌<◌, ◌≤◌, drop, length};
    ghost use Rattle.px_base.specs.Memory.{SourceState};

    ghost Value = { SourceState };

    ghost view = { λ source. record {
      left = drop source.at source.bytes;
      piece = source.piece;
      failing = source.calls.failing;
      calls = source.calls.made;
      faults = source.calls.failed;
    } };

    ghost invariant = { λ source. (0 < source.piece) × (source.at ≤ length source.bytes) };
}

impl MemorySource {
    /// A source of these bytes, of which one call moves `piece` at most, and whose calls with the numbers in
    /// `failing`, counted from 1, fail.
    pub fn new(bytes: Bytes, piece: usize, failing: Numbers) -> MemorySource
        requires { 0 < piece }
        ensures { result ≡ record { left = bytes; piece = piece; failing = failing; calls = 0; faults = 0 } }
    {
        MemorySource {
            bytes,
            at: 0,
            piece,
            calls: Calls::new(failing),
        }
    }
}

/// Puts as many of these bytes as fit into a piece and into the buffer at its start, and returns how many.
fn give(left: &[u8], piece: usize, into: &mut [u8]) -> usize
    ensures count { result ≡ min (min piece (length into.old)) (length left.now) }
    ensures buffer { into.new ≡ take result left.now ++ drop result into.old }
{
    let n = piece.min(into.len()).min(left.len());
    into[..n].copy_from_slice(&left[..n]);
    n
}

impl Source for MemorySource {
    ghost use Rattle.std.specs.Prelude.{Some};

    ghost left = { λ source. Some source.left };

    ghost faults = { λ source. source.faults };

    fn read(&mut self, into: &mut [u8]) -> Result<usize, Failed>
        ensures bound { IfOk result (λ n. n ≤ length into.old) }
        ensures bytes { Reads (Some self.old.left) (Some self.new.left) result into.new }
        ensures later { self.old.faults ≤ self.new.faults }
        ensures cause { OnErr result (Rose self.old.faults self.new.faults) }
        ensures calm { OnOk result (self.new.faults ≡ self.old.faults) }

        ensures failed { IsErr result ↔ IsTrue (next_fails self.old.failing self.old.calls) }
        ensures count { IfOk result (λ n. n ≡ min (min self.old.piece (length into.old)) (length self.old.left)) }
        ensures buffer { into.new ≡ take (count_moved result) self.old.left ++ drop (count_moved result) into.old }
        ensures state { self.new ≡ record self.old {
          left = drop (count_moved result) self.old.left;
          calls = one_more self.old.calls;
          faults = faults_after self.old.failing self.old.calls self.old.faults;
        } }
    {
        if self.calls.next_fails() {
            return Err(Failed);
        }
        let (_, left) = self.bytes.as_slice().split_at(self.at);
        let n = give(left, self.piece, into);
        self.at += n;
        Ok(n)
    }
}

/// A sink in memory.
#[derive(Drop)]
pub struct MemorySink {
    bytes: Bytes,
    piece: usize,
    calls: Calls,
}

impl Model for MemorySink {
    ghost use Rattle.std.specs.Prelude.{◌<◌};
    ghost use Rattle.px_base.specs.Memory.{SinkState};

    ghost Value = { SinkState };

    ghost view = { λ sink. record {
      taken = sink.bytes;
      piece = sink.piece;
      failing = sink.calls.failing;
      calls = sink.calls.made;
      faults = sink.calls.failed;
    } };

    ghost invariant = { λ sink. 0 < sink.piece };
}

impl MemorySink {
    /// An empty sink, of which one call moves `piece` at most, and whose calls with the numbers in `failing`,
    /// counted from 1, fail.
    pub fn new(alloc: Global, piece: usize, failing: Numbers) -> MemorySink
        requires { 0 < piece }
        ensures { result ≡ record { taken = []; piece = piece; failing = failing; calls = 0; faults = 0 } }
    {
        MemorySink {
            bytes: Sequence::new(alloc),
            piece,
            calls: Calls::new(failing),
        }
    }

    /// The bytes that were taken so far.
    pub fn bytes(&self) -> &Bytes
        ensures { result.now ≡ self.now.taken }
    {
        &self.bytes
    }
}

impl Sink for MemorySink {
    ghost use Rattle.std.specs.Prelude.{Some};

    ghost taken = { λ sink. Some sink.taken };

    ghost faults = { λ sink. sink.faults };

    fn write(&mut self, piece: &[u8]) -> Result<usize, SinkTrouble>
        ensures bound { IfOk result (λ n. n ≤ length piece.now) }
        ensures bytes { Takes (Some self.old.taken) (Some self.new.taken) result piece.now }
        ensures later { self.old.faults ≤ self.new.faults }
        ensures cause { IsErrOf result SinkTrouble.Failed → Rose self.old.faults self.new.faults }
        ensures stall { result ≡ Ok 0 → 0 < length piece.now → Rose self.old.faults self.new.faults }
        ensures calm { WriteIsCalm self.old.faults self.new.faults piece.now result }

        ensures failed { (result ≡ Err SinkTrouble.Failed) ↔ IsTrue (next_fails self.old.failing self.old.calls) }
        ensures count { IfOk result (λ n. n ≡ min self.old.piece (length piece.now)) }
        ensures state { self.new ≡ record self.old {
          taken = self.old.taken ++ take (count_moved result) piece.now;
          calls = one_more self.old.calls;
          faults = faults_after self.old.failing self.old.calls self.old.faults;
        } }
    {
        if self.calls.next_fails() {
            return Err(SinkTrouble::Failed);
        }
        let n = self.piece.min(piece.len());
        self.bytes.extend_from_slice(&piece[..n])?;
        Ok(n)
    }
}

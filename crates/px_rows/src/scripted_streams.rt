//! A stream that answers by a script.
ghost use Rattle.std.specs.Prelude.{◌≤◌, IfOk};

use crate::rows::{Row, Unjudged};
use std::io;
use std::io::{ErrorKind, Read, Write};

/// A stream whose calls go as a script says, the last one again and again. In the script a digit is the most bytes that a call moves, `i`
/// stands for one that is interrupted, `m` for want of memory, and `b` for a broken pipe. What is read changes no buffer.
#[derive(Drop)]
pub struct ScriptedStream<'a> {
    script: &'a [u8],
}

impl<'a> ScriptedStream<'a> {
    /// A stream with the script that a row says next, which isn't empty.
    pub fn of_row(row: &mut Row<'a>) -> ScriptedStream<'a> {
        let script = row.field().as_bytes();
        if script.is_empty()
            || !script
                .iter()
                .all(|b| matches!(*b, b'0'..=b'9' | b'i' | b'm' | b'b'))
        {
            row.leave(Unjudged::NoRow);
        }
        ScriptedStream { script }
    }

    /// The answer of the next call.
    fn answer(&mut self, room: usize) -> io::Result<usize>
        ensures { IfOk result (λ n. n ≤ room) }
    {
        let Some((call, left)) = self.script.split_first() else {
            return Ok(0);
        };
        if !left.is_empty() {
            self.script = left;
        }
        match *call {
            b'i' => Err(io::Error::from(ErrorKind::Interrupted)),
            b'm' => Err(io::Error::from(ErrorKind::OutOfMemory)),
            b'b' => Err(io::Error::from(ErrorKind::BrokenPipe)),
            digit => Ok(room.min(digit.saturating_sub(b'0') as usize)),
        }
    }
}

impl<'a> Read for ScriptedStream<'a> {
    fn read(&mut self, buf: &mut [u8]) -> io::Result<usize> {
        self.answer(buf.len())
    }
}

impl<'a> Write for ScriptedStream<'a> {
    fn write(&mut self, buf: &[u8]) -> io::Result<usize> {
        self.answer(buf.len())
    }

    fn flush(&mut self) -> io::Result<()> {
        Ok(())
    }
}

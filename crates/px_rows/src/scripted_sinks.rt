//! A sink that answers by a script.
use crate::rows::{Row, Unjudged};
use px_base::{Sink, SinkTrouble};

/// A sink that answers its first writes by a script, and takes every piece after these whole. In the script a digit is the most bytes
/// that a write takes, `f` a failure, and `m` want of memory.
#[derive(Drop)]
pub struct ScriptedSink<'a> {
    script: &'a [u8],
    calls: usize,
    bytes: Vec<u8>,
    faults: u64,
}

impl<'a> ScriptedSink<'a> {
    /// An empty sink with the script that a row says next.
    pub fn of_row(row: &mut Row<'a>) -> ScriptedSink<'a> {
        let script = row.field().as_bytes();
        if !script
            .iter()
            .all(|b| matches!(*b, b'0'..=b'9' | b'f' | b'm'))
        {
            row.leave(Unjudged::NoRow);
        }
        ScriptedSink {
            script,
            calls: 0,
            bytes: Vec::new(row.alloc()),
            faults: 0,
        }
    }

    /// What was taken.
    pub fn bytes(&self) -> &[u8] {
        self.bytes.as_slice()
    }
}

/// The most bytes that a write takes, by the script, or its trouble.
fn most_bytes(script: &[u8], call: usize) -> Result<usize, SinkTrouble> {
    match script.get(call) {
        Some(b'f') => Err(SinkTrouble::Failed),
        Some(b'm') => Err(SinkTrouble::NoMemory),
        Some(digit) => Ok(digit.saturating_sub(b'0') as usize),
        None => Ok(usize::MAX),
    }
}

impl<'a> Sink for ScriptedSink<'a> {
    ghost use Rattle.std.specs.Prelude.{None};

    ghost taken = { λ _. None };

    ghost faults = { λ sink. sink.faults };

    fn write(&mut self, piece: &[u8]) -> Result<usize, SinkTrouble> {
        let response = most_bytes(self.script, self.calls);
        self.calls = self.calls.saturating_add(1);
        match response {
            Ok(most) => {
                let count = most.min(piece.len());
                self.bytes.extend_from_slice(&piece[..count])?;
                if count == 0 && !piece.is_empty() {
                    self.faults = self.faults.saturating_add(1);
                }
                Ok(count)
            }
            Err(SinkTrouble::Failed) => {
                self.faults = self.faults.saturating_add(1);
                Err(SinkTrouble::Failed)
            }
            Err(SinkTrouble::NoMemory) => Err(SinkTrouble::NoMemory),
        }
    }
}

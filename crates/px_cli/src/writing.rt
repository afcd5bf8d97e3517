ghost use Rattle.px_cli.specs.Answer.{taking_of};
ghost use Rattle.px_cli.specs.Writing.{IsWritten};

use px_base::{Sink, SinkTrouble};

/// How the writing of a text ended.
#[derive(Clone, Copy, PartialEq, Eq)]
pub enum Wrote {
    /// The sink took all of it.
    All,
    /// A write failed, or took nothing.
    Fault,
    /// The sink had no memory.
    NoMemory,
}

/// Writes a text, in as many pieces as the sink takes it; after a write that fails nothing more is written.
pub fn write_whole<K: Sink>(sink: &mut K, text: &[u8]) -> Wrote
    ensures { IsWritten result text.now
        (taking_of (K.taken sink.old) (K.taken sink.new) (K.faults sink.old) (K.faults sink.new)) }
{
    let mut at = 0;
    while at < text.len() {
        match sink.write(&text[at..]) {
            Ok(count) => {
                if count == 0 {
                    return Wrote::Fault;
                }
                at += count;
            }
            Err(SinkTrouble::Failed) => return Wrote::Fault,
            Err(SinkTrouble::NoMemory) => return Wrote::NoMemory,
        }
    }
    Wrote::All
}

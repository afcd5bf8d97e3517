//! What every layer of pyxrun shares: C types, places, refusals, faults, statuses, and the traits of the outside.
#![tactic(auto)]

mod adapters;
mod c_types;
mod faults;
mod findings;
mod lines;
mod memory;
mod objects;
mod outside;
mod refusals;
mod sequences;
mod statuses;

pub use adapters::{FolderLibrary, InputSource, OpenGate, OutputSink};
pub use c_types::{BinOp, CType, CmpOp, Schedule, UnOp};
pub use faults::{Fault, Kind, Said, StepTrouble};
pub use findings::{earlier, first_in, first_laws, order_laws, precedes};
pub use lines::{fault_line, refusal_line, utf8};
pub use memory::{Files, MemoryLibrary, MemorySink, MemorySource};
pub use objects::{Builtin, Constant, Method};
pub use outside::{Gate, Library, LibraryTrouble, Point, Sink, SinkTrouble, Source};
pub use refusals::{Failed, NoMemory, Refusal, Span, Trouble};
pub use sequences::{Bytes, Chars, Numbers, Sequence};
pub use statuses::Status;

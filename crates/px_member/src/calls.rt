//! Calls and the ends of frames.

ghost use Rattle.std.specs.Prelude.{◌≡◌, ◌+◌, ◌++◌, [], Some};
ghost use Rattle.px_regcode.specs.Images.{ImageParts};
ghost use Rattle.px_regcode.specs.declared.instructions.Instr.TheVariants as instr;
ghost use Rattle.px_regcode.specs.declared.codes.Code.{Code as CodeParts};
ghost use Rattle.px_machine.specs.Slots as machine;
ghost use Rattle.px_machine.specs.Machine.{returns};
ghost use Rattle.px_interp.specs.Slots.{references_in, slot_of};
ghost use Rattle.px_member.specs.Members.{AreHeldIn, HoldsAll, IsMember, references_in as references_in_all};
ghost use Rattle.px_member.specs.Acts.{Acts, Did, opening};

use crate::frames::Frame;
use crate::member::{Member, Step};
use px_base::{Fault, Kind, Said};
use px_interp::{Registers, Slot};
use px_model::LoopEnd;
use px_regcode::{Code, Image, Register};
use std::mem;

/// How many frames there may be.
const FRAME_LIMIT: usize = 500;

impl Member {
    /// `call f d`: spends a turn, and opens a frame of the function.
    pub(crate) fn call(&mut self, image: &Image, f: u32, d: Option<Register>, next: usize) -> Step
        requires { next ≡ self.old.frame.pc + 1 }
        ensures did { Acts image.now (instr.Call f d []) self.old result self.new }
        ensures held { HoldsAll self.old → HoldsAll self.new }
    {
        let Some(code) = image.codes().get(f as usize) else {
            return Step::Went;
        };
        if self.turns == 0 {
            self.end = Some(LoopEnd::Spent);
            return Step::Ended;
        }
        self.turns -= 1;
        if self.callers.len() + 1 >= FRAME_LIMIT {
            return self.fail(Fault {
                kind: Kind::RecursionError,
                said: Said::Row(31),
            });
        }
        self.open(f, code.registers, d, next)
    }

    /// Opens a frame, whose registers are empty, over the one that runs.
    fn open(&mut self, f: u32, count: u32, d: Option<Register>, next: usize) -> Step
        requires { next ≡ self.old.frame.pc + 1 }
        ensures did { (code : CodeParts) (m : machine.Member) → code.registers ≡ count → IsMember self.old m → Did result (opening f code d m) self.new }
        ensures held { HoldsAll self.old → HoldsAll self.new }
    {
        let Ok(registers) = Registers::new(self.alloc, count) else {
            return Step::NoMemory;
        };
        self.frame.pc = next;
        let opened = Frame {
            function: f,
            pc: 0,
            registers,
            result: d,
            handler: None,
            caught: None,
        };
        let caller = mem::replace(&mut self.frame, opened);
        if let Err(refused) = self.callers.push(caller) {
            drop(refused);
            return Step::NoMemory;
        }
        Step::Went
    }

    /// `return a`: the frame ends with what a register holds.
    pub(crate) fn give(&mut self, a: Register) -> Step
        ensures did { (image : ImageParts) → Acts image (instr.Return a) self.old result self.new }
        ensures held { HoldsAll self.old → HoldsAll self.new }
    {
        let slot = self.frame.registers.take(a);
        self.back(slot)
    }

    /// `finish`: the frame ends without a result.
    pub(crate) fn finish(&mut self) -> Step
        ensures did { (image : ImageParts) → Acts image instr.Finish self.old result self.new }
        ensures held { HoldsAll self.old → HoldsAll self.new }
    {
        self.back(Slot::Empty)
    }

    /// The frame ends, and the one that waits for it goes on with what it gives.
    fn back(&mut self, slot: Slot) -> Step
        ensures did { (m : machine.Member) → IsMember self.old m → Did result (returns (slot_of slot) m) self.new }
        ensures held { AreHeldIn self.old.book (references_in slot ++ references_in_all self.old) → HoldsAll self.new }
    {
        let Some(caller) = self.callers.pop() else {
            drop(slot);
            self.end = Some(LoopEnd::Over);
            return Step::Ended;
        };
        let result = self.frame.result;
        drop(mem::replace(&mut self.frame, caller));
        match result {
            Some(d) => {
                self.frame.registers.set(d, slot);
                Step::Went
            }
            None => {
                drop(slot);
                Step::Went
            }
        }
    }
}

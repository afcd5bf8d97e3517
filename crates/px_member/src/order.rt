//! Which instruction comes next, and where faults go.

ghost use Rattle.std.specs.Prelude.{◌≡◌, ℕ, ◌+◌, Some, None};
ghost use Rattle.px_regcode.specs.Images.{ImageParts};
ghost use Rattle.px_regcode.specs.declared.instructions.Instr.TheVariants as instr;
ghost use Rattle.px_machine.specs.Slots as machine;
ghost use Rattle.px_machine.specs.Machine.{caught_fault, faulting};
ghost use Rattle.px_member.specs.Members.{HoldsAll, IsMember};
ghost use Rattle.px_member.specs.Acts.{Acts, Did};

use crate::member::{Member, Step};
use px_base::{Fault, Kind, Said};
use px_interp::Slot;
use px_model::LoopEnd;
use px_regcode::Register;
use std::mem;

impl Member {
    /// `jump @k`
    pub(crate) fn go_to(&mut self, pc: usize) -> Step
        ensures did { (image : ImageParts) → Acts image (instr.Jump pc) self.old result self.new }
        ensures held { HoldsAll self.old → HoldsAll self.new }
    {
        self.frame.pc = pc;
        Step::Went
    }

    /// `branch a @k @j`
    pub(crate) fn branch(&mut self, a: Register, k: u32, j: u32) -> Step
        ensures did { (image : ImageParts) → Acts image (instr.Branch a k j) self.old result self.new }
        ensures held { HoldsAll self.old → HoldsAll self.new }
    {
        let Some(n) = self.frame.registers.number(a) else {
            return Step::Went;
        };
        let to = if n == 0 { j } else { k };
        self.go_to(to as usize)
    }

    /// `turn`
    pub(crate) fn turn(&mut self, next: usize) -> Step
        requires { next ≡ self.old.frame.pc + 1 }
        ensures did { (image : ImageParts) → Acts image instr.Turn self.old result self.new }
        ensures held { HoldsAll self.old → HoldsAll self.new }
    {
        if self.turns == 0 {
            self.end = Some(LoopEnd::Spent);
            return Step::Ended;
        }
        self.turns -= 1;
        self.go_to(next)
    }

    /// `handle @k` and `unhandle`
    pub(crate) fn handle(&mut self, k: Option<u32>, next: usize) -> Step
        requires { next ≡ self.old.frame.pc + 1 }
        ensures handle { (image : ImageParts) (to : ℕ) → k ≡ Some to → Acts image (instr.Handle to) self.old result self.new }
        ensures unhandle { (image : ImageParts) → k ≡ None → Acts image instr.Unhandle self.old result self.new }
        ensures held { HoldsAll self.old → HoldsAll self.new }
    {
        self.frame.handler = k;
        self.go_to(next)
    }

    /// A fault goes on at the handler of its frame, which is cleared. Without one it ends the frame, and is one of the frame that waits.
    pub(crate) fn fail(&mut self, fault: Fault) -> Step
        ensures did { (m : machine.Member) → IsMember self.old m → Did result (faulting fault m) self.new }
        ensures held { HoldsAll self.old → HoldsAll self.new }
    {
        loop {
            if let Some(pc) = self.frame.handler {
                self.frame.pc = pc as usize;
                self.frame.handler = None;
                self.frame.caught = Some(fault);
                return Step::Went;
            }
            match self.callers.pop() {
                Some(caller) => drop(mem::replace(&mut self.frame, caller)),
                None => {
                    self.end = Some(LoopEnd::Raised(fault));
                    return Step::Ended;
                }
            }
        }
    }

    /// `throw`: the frame ends with the last fault that went to its handler.
    pub(crate) fn throw(&mut self) -> Step
        ensures did { (image : ImageParts) → Acts image instr.Throw self.old result self.new }
        ensures held { HoldsAll self.old → HoldsAll self.new }
    {
        let fault = self.last_fault();
        match self.callers.pop() {
            Some(caller) => {
                drop(mem::replace(&mut self.frame, caller));
                self.fail(fault)
            }
            None => {
                self.end = Some(LoopEnd::Raised(fault));
                Step::Ended
            }
        }
    }

    /// The last fault that went to the handler of the frame, which then has none; that of a wrong kind where none did.
    fn last_fault(&mut self) -> Fault
        ensures fault { result ≡ caught_fault self.old.frame.caught }
        ensures rest { self.new ≡ record self.old { frame = record self.old.frame { caught = None } } }
    {
        match self.frame.caught.take() {
            Some(fault) => fault,
            None => Fault {
                kind: Kind::TypeError,
                said: Said::Row(22),
            },
        }
    }

    /// `caught d`
    pub(crate) fn caught(&mut self, d: Register, next: usize) -> Step
        requires { next ≡ self.old.frame.pc + 1 }
        ensures did { (image : ImageParts) → Acts image (instr.Caught d) self.old result self.new }
        ensures held { HoldsAll self.old → HoldsAll self.new }
    {
        let fault = self.last_fault();
        self.frame.registers.set(d, Slot::Fault(fault));
        self.go_to(next)
    }

    /// `unset d`, and `forget a` of a fault
    pub(crate) fn empty(&mut self, d: Register, next: usize) -> Step
        requires { next ≡ self.old.frame.pc + 1 }
        ensures unset { (image : ImageParts) → Acts image (instr.Unset d) self.old result self.new }
        ensures forget { (image : ImageParts) → Acts image (instr.Forget d) self.old result self.new }
        ensures held { HoldsAll self.old → HoldsAll self.new }
    {
        self.frame.registers.set(d, Slot::Empty);
        self.go_to(next)
    }

    /// `need a`
    pub(crate) fn need(&mut self, a: Register, next: usize) -> Step
        requires { next ≡ self.old.frame.pc + 1 }
        ensures did { (image : ImageParts) → Acts image (instr.Need a) self.old result self.new }
        ensures held { HoldsAll self.old → HoldsAll self.new }
    {
        if self.frame.registers.is_empty(a) {
            return self.fail(Fault {
                kind: Kind::UnboundLocalError,
                said: Said::Row(26),
            });
        }
        self.go_to(next)
    }
}

//! The instructions on objects, which the object runtime runs.

ghost use Rattle.std.specs.Prelude.{◌≡◌, ◌+◌};
ghost use Rattle.px_regcode.specs.Images.{ImageParts};
ghost use Rattle.px_regcode.specs.declared.instructions.Instr.TheVariants as instr;
ghost use Rattle.px_machine.specs.Slots as machine;
ghost use Rattle.px_machine.specs.Steps as steps;
ghost use Rattle.px_interp.specs.Interps.{Interp as InterpParts};
ghost use Rattle.px_interp.specs.Rows.{GoesTo};
ghost use Rattle.px_member.specs.Members.{HoldsAll};
ghost use Rattle.px_member.specs.Acts.{Acts, Did, IsMemberThen};

use crate::member::{Member, Step};
use px_base::{CType, Constant, StepTrouble};
use px_regcode::Register;

impl Member {
    /// Goes on behind an instruction, or by its fault.
    fn behind(&mut self, done: Result<(), StepTrouble>, next: usize) -> Step
        requires { next ≡ self.old.frame.pc + 1 }
        ensures did { (book : InterpParts) (m : machine.Member) (s : steps.Step) → IsMemberThen self.old book m
            → GoesTo book self.old.frame.registers m s done → Did result s self.new }
        ensures held { HoldsAll self.old → HoldsAll self.new }
    {
        match done {
            Ok(()) => self.go_to(next),
            Err(StepTrouble::Raised(fault)) => self.fail(fault),
            Err(StepTrouble::NoMemory) => Step::NoMemory,
        }
    }

    /// `text d n` and `wide d n`
    pub(crate) fn text(&mut self, constants: &[Constant], d: Register, n: u32, next: usize) -> Step
        requires next { next ≡ self.old.frame.pc + 1 }
        requires held { HoldsAll self.old }
        ensures text { (image : ImageParts) → image.constants ≡ constants.now → Acts image (instr.Text d n) self.old result self.new }
        ensures wide { (image : ImageParts) → image.constants ≡ constants.now → Acts image (instr.Wide d n) self.old result self.new }
        ensures held { HoldsAll self.new }
    {
        let Some(book) = &mut self.book else {
            return Step::Went;
        };
        let done = book.constant(constants, d, n, &mut self.frame.registers);
        self.behind(done, next)
    }

    /// `box T d a`
    pub(crate) fn boxed(&mut self, t: CType, d: Register, a: Register, next: usize) -> Step
        requires next { next ≡ self.old.frame.pc + 1 }
        requires held { HoldsAll self.old }
        ensures did { (image : ImageParts) → Acts image (instr.Box t d a) self.old result self.new }
        ensures held { HoldsAll self.new }
    {
        let Some(book) = &mut self.book else {
            return Step::Went;
        };
        let done = book.boxed(t, d, a, &mut self.frame.registers);
        self.behind(done, next)
    }

    /// `share d a`
    pub(crate) fn share(&mut self, d: Register, a: Register, next: usize) -> Step
        requires next { next ≡ self.old.frame.pc + 1 }
        requires held { HoldsAll self.old }
        ensures did { (image : ImageParts) → Acts image (instr.Share d a) self.old result self.new }
        ensures held { HoldsAll self.new }
    {
        let Some(book) = &mut self.book else {
            return Step::Went;
        };
        book.share(d, a, &mut self.frame.registers);
        self.go_to(next)
    }

    /// `drop a`
    pub(crate) fn let_go(&mut self, a: Register, next: usize) -> Step
        requires next { next ≡ self.old.frame.pc + 1 }
        requires held { HoldsAll self.old }
        ensures did { (image : ImageParts) → Acts image (instr.Drop a) self.old result self.new }
        ensures held { HoldsAll self.new }
    {
        let Some(book) = &mut self.book else {
            return Step::Went;
        };
        book.let_go(a, &mut self.frame.registers);
        self.go_to(next)
    }

    /// `print a..`
    pub(crate) fn print(&mut self, arguments: &[Register], next: usize) -> Step
        requires next { next ≡ self.old.frame.pc + 1 }
        requires held { HoldsAll self.old }
        ensures did { (image : ImageParts) → Acts image (instr.Print arguments.now) self.old result self.new }
        ensures held { HoldsAll self.new }
    {
        let Some(book) = &mut self.book else {
            return Step::Went;
        };
        let done = book.print(arguments, &self.frame.registers);
        self.behind(done, next)
    }
}

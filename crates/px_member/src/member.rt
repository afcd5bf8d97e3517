ghost use Rattle.std.specs.Prelude.{◌≡◌, ◌≢◌, ◌+◌, ◌++◌, [], Some, None, true};
ghost use Rattle.px_regcode.specs.Images.{ImageParts};
ghost use Rattle.px_regcode.specs.declared.instructions.Instr.{Instr as Instruction};
ghost use Rattle.px_machine.specs.Slots as machine;
ghost use Rattle.px_machine.specs.Steps.{stuck};
ghost use Rattle.px_machine.specs.Machine as table;
ghost use Rattle.px_interp.specs.Slots.{references_of};
ghost use Rattle.px_member.specs.Members.{HoldsAll, IsMember};
ghost use Rattle.px_machine.specs.Running.{AllRun, is_run};
ghost use Rattle.px_member.specs.Acts.{Acts, Did};

use crate::frames::Frame;
use px_base::NoMemory;
use px_interp::{Interp, Registers};
use px_model::LoopEnd;
use px_regcode::{Image, Instr};
use std::alloc::Global;
use std::marker::Model;

/// What a member did.
#[derive(Clone, Copy, PartialEq, Eq)]
pub enum Step {
    /// It ran an instruction.
    Went,
    /// It asked for the lock, which wasn't to be had.
    NotYet,
    /// It has ended, by its instruction.
    Ended,
    /// There was no memory for its instruction.
    NoMemory,
}

/// A member of a team, or the one that runs module code: its frames, what they hold, and the turns that it has left.
#[derive(Drop)]
pub struct Member {
    pub(crate) alloc: Global,
    pub(crate) frame: Frame,
    pub(crate) callers: Vec<Frame>,
    pub(crate) turns: u64,
    pub(crate) members: u32,
    pub(crate) book: Option<Interp>,
    pub(crate) end: Option<LoopEnd>,
}

impl Model for Member {
    ghost use Rattle.px_member.specs.Members.{Member as Parts};

    ghost Value = { Parts };

    ghost view = { λ m. record {
      frame = m.frame;
      callers = m.callers.items;
      turns = m.turns;
      members = m.members;
      book = m.book;
      end = m.end;
    } };
}

impl Member {
    /// One instruction.
    pub fn step(&mut self, image: &Image) -> Step
        requires run { AllRun image.now }
        requires held { HoldsAll self.old }
        ensures did { (m : machine.Member) → IsMember self.old m → table.step image.now m ≢ stuck → Did result (table.step image.now m) self.new }
        ensures held { HoldsAll self.new }
    {
        let Some(code) = image.codes().get(self.frame.function as usize) else {
            return Step::Went;
        };
        let instrs = code.instrs.as_slice();
        match instrs.get(self.frame.pc) {
            Some(instr) => self.act(image, instr, self.frame.pc + 1),
            None => Step::Went,
        }
    }

    /// Runs an instruction, behind which this one stands.
    fn act(&mut self, image: &Image, instr: &Instr, next: usize) -> Step
        requires next { next ≡ self.old.frame.pc + 1 }
        requires run { is_run instr.now ≡ true }
        requires held { HoldsAll self.old }
        ensures did { Acts image.now instr.now self.old result self.new }
        ensures held { HoldsAll self.new }
    {
        match instr {
            Instr::Const(d, n) => self.constant(*d, *n, next),
            Instr::Move(d, a) => self.take(*d, *a, next),
            Instr::Binary(op, t, d, a, b, truncates) => self.binary(
                *op, *t, *d, *a, *b, *truncates, next,
            ),
            Instr::Unary(op, t, d, a) => self.unary(*op, *t, *d, *a, next),
            Instr::Compare(op, t, d, a, b) => self.compare(*op, *t, *d, *a, *b, next),
            Instr::Convert(t, d, a) => self.convert(*t, *d, *a, next),
            Instr::Magnitude(t, d, a) => self.magnitude(*t, *d, *a, next),
            Instr::Jump(k) => self.go_to(*k as usize),
            Instr::Branch(a, k, j) => self.branch(*a, *k, *j),
            Instr::Turn => self.turn(next),
            Instr::Call(f, d, _) => self.call(image, *f, *d, next),
            Instr::Return(a) => self.give(*a),
            Instr::Finish => self.finish(),
            Instr::Handle(k) => self.handle(Some(*k), next),
            Instr::Unhandle => self.handle(None, next),
            Instr::Throw => self.throw(),
            Instr::Caught(d) => self.caught(*d, next),
            Instr::Forget(a) => self.empty(*a, next),
            Instr::Unset(d) => self.empty(*d, next),
            Instr::Need(a) => self.need(*a, next),
            Instr::Members(d) => self.team(*d, next),
            Instr::Text(d, n) => self.text(image.constants(), *d, *n, next),
            Instr::Wide(d, n) => self.text(image.constants(), *d, *n, next),
            Instr::Box(t, d, a) => self.boxed(*t, *d, *a, next),
            Instr::Share(d, a) => self.share(*d, *a, next),
            Instr::Drop(a) => self.let_go(*a, next),
            Instr::Print(arguments) => self.print(arguments.as_slice(), next),
            _ => Step::Went,
        }
    }
}

//! The instructions on numbers.

ghost use Rattle.std.specs.Prelude.{◌≡◌, ◌≢◌, ◌+◌};
ghost use Rattle.px_base.specs.declared.c_types.CType.TheVariants.{Bint};
ghost use Rattle.px_ctypes.specs.Operators.{IsOperand, is_shift as is_a_shift};
ghost use Rattle.px_regcode.specs.Images.{ImageParts};
ghost use Rattle.px_regcode.specs.declared.instructions.Instr.TheVariants as instr;
ghost use Rattle.px_machine.specs.Slots as machine;
ghost use Rattle.px_machine.specs.Machine.{right_operand, sets};
ghost use Rattle.px_member.specs.Members.{HoldsAll, IsMember};
ghost use Rattle.px_member.specs.Acts.{Acts, Did};

use crate::member::{Member, Step};
use px_base::{BinOp, CType, CmpOp, UnOp};
use px_ctypes::{binary, compare, convert, unary, wrap};
use px_interp::Slot;
use px_regcode::Register;

/// Whether the right operand is the count of a shift.
fn is_shift(op: BinOp) -> bool
    ensures { result ≡ is_a_shift op }
{
    match op {
        BinOp::Shl => true,
        BinOp::Shr => true,
        _ => false,
    }
}

/// The right operand of an operator on numbers of a type: the count of a shift is any number.
fn right(op: BinOp, t: CType, n: i128) -> i128
    ensures value { result ≡ right_operand op t n }
    ensures operand { IsOperand op t result }
{
    if is_shift(op) { n } else { convert(t, n) }
}

impl Member {
    /// Sets a register to a number, and goes on.
    fn put(&mut self, d: Register, n: i128, next: usize) -> Step
        requires { next ≡ self.old.frame.pc + 1 }
        ensures did { (m : machine.Member) → IsMember self.old m → Did result (sets d (machine.whole n) m) self.new }
        ensures held { HoldsAll self.old → HoldsAll self.new }
    {
        self.frame.registers.set(d, Slot::Whole(n));
        self.go_to(next)
    }

    /// `const d n`
    pub(crate) fn constant(&mut self, d: Register, n: i128, next: usize) -> Step
        requires { next ≡ self.old.frame.pc + 1 }
        ensures did { (image : ImageParts) → Acts image (instr.Const d n) self.old result self.new }
        ensures held { HoldsAll self.old → HoldsAll self.new }
    {
        self.put(d, n, next)
    }

    /// `move d a`
    pub(crate) fn take(&mut self, d: Register, a: Register, next: usize) -> Step
        requires { next ≡ self.old.frame.pc + 1 }
        ensures did { (image : ImageParts) → Acts image (instr.Move d a) self.old result self.new }
        ensures held { HoldsAll self.old → HoldsAll self.new }
    {
        if let Some(n) = self.frame.registers.number(a) {
            return self.put(d, n, next);
        }
        let slot = self.frame.registers.take(a);
        self.frame.registers.set(d, slot);
        self.go_to(next)
    }

    /// `binary op T d a b cdiv`
    pub(crate) fn binary(
        &mut self,
        op: BinOp,
        t: CType,
        d: Register,
        a: Register,
        b: Register,
        truncates: bool,
        next: usize,
    ) -> Step
        requires arithmetic { t ≢ Bint }
        requires next { next ≡ self.old.frame.pc + 1 }
        ensures did { (image : ImageParts) → Acts image (instr.Binary op t d a b truncates) self.old result self.new }
        ensures held { HoldsAll self.old → HoldsAll self.new }
    {
        let Some(x) = self.frame.registers.number(a) else {
            return Step::Went;
        };
        let Some(y) = self.frame.registers.number(b) else {
            return Step::Went;
        };
        match binary(op, t, convert(t, x), right(op, t, y), truncates) {
            Ok(n) => self.put(d, n, next),
            Err(fault) => self.fail(fault),
        }
    }

    /// `unary op T d a`
    pub(crate) fn unary(
        &mut self,
        op: UnOp,
        t: CType,
        d: Register,
        a: Register,
        next: usize,
    ) -> Step
        requires arithmetic { t ≢ Bint }
        requires next { next ≡ self.old.frame.pc + 1 }
        ensures did { (image : ImageParts) → Acts image (instr.Unary op t d a) self.old result self.new }
        ensures held { HoldsAll self.old → HoldsAll self.new }
    {
        let Some(x) = self.frame.registers.number(a) else {
            return Step::Went;
        };
        self.put(d, unary(op, t, convert(t, x)), next)
    }

    /// `compare op T d a b`
    pub(crate) fn compare(
        &mut self,
        op: CmpOp,
        t: CType,
        d: Register,
        a: Register,
        b: Register,
        next: usize,
    ) -> Step
        requires { next ≡ self.old.frame.pc + 1 }
        ensures did { (image : ImageParts) → Acts image (instr.Compare op t d a b) self.old result self.new }
        ensures held { HoldsAll self.old → HoldsAll self.new }
    {
        let Some(x) = self.frame.registers.number(a) else {
            return Step::Went;
        };
        let Some(y) = self.frame.registers.number(b) else {
            return Step::Went;
        };
        let holds = compare(op, convert(t, x), convert(t, y));
        self.put(d, if holds { 1 } else { 0 }, next)
    }

    /// `convert T d a`
    pub(crate) fn convert(&mut self, t: CType, d: Register, a: Register, next: usize) -> Step
        requires { next ≡ self.old.frame.pc + 1 }
        ensures did { (image : ImageParts) → Acts image (instr.Convert t d a) self.old result self.new }
        ensures held { HoldsAll self.old → HoldsAll self.new }
    {
        let Some(x) = self.frame.registers.number(a) else {
            return Step::Went;
        };
        self.put(d, convert(t, x), next)
    }

    /// `magnitude T d a`
    pub(crate) fn magnitude(&mut self, t: CType, d: Register, a: Register, next: usize) -> Step
        requires arithmetic { t ≢ Bint }
        requires next { next ≡ self.old.frame.pc + 1 }
        ensures did { (image : ImageParts) → Acts image (instr.Magnitude t d a) self.old result self.new }
        ensures held { HoldsAll self.old → HoldsAll self.new }
    {
        let Some(x) = self.frame.registers.number(a) else {
            return Step::Went;
        };
        let n = convert(t, x);
        self.put(d, wrap(t, if n < 0 { -n } else { n }), next)
    }

    /// `members d`
    pub(crate) fn team(&mut self, d: Register, next: usize) -> Step
        requires { next ≡ self.old.frame.pc + 1 }
        ensures did { (image : ImageParts) → Acts image (instr.Members d) self.old result self.new }
        ensures held { HoldsAll self.old → HoldsAll self.new }
    {
        self.put(d, self.members as i128, next)
    }
}

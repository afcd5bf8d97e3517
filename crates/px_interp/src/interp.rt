ghost use Rattle.std.specs.Prelude.{◌≡◌, ◌+◌, nat_lt, [], ◌∷◌, List, Ok, IfOk};
ghost use Rattle.px_model.specs.declared.stores.Store.{Store};
ghost use Rattle.px_meaning.specs.Objects.{boxed as object_boxed, output_limit};
ghost use Rattle.px_heap.specs.declared.values.Serial.{Serial as Reference};
ghost use Rattle.px_heap.specs.Heaps.{AreHeld};
ghost use Rattle.px_heap.specs.References.{references};
ghost use Rattle.px_heap.specs.Stores.{object_value};
ghost use Rattle.px_interp.specs.Slots.{references_of};
ghost use Rattle.px_interp.specs.Interps.{Represents};
ghost use Rattle.px_interp.specs.Texts.{IsLineOf, texts_in};
ghost use Rattle.px_interp.specs.Rows.{AreHeldThen, IsMadeIn, IsRow, KeepsHeld};
ghost use Rattle.px_regcode.specs.Images.{ImageParts};
ghost use Rattle.px_regcode.specs.declared.instructions.Instr.TheVariants as instr;

use crate::registers::{Registers, Slot};
use crate::texts::{separate, value_of, write_text};
use px_base::{Bytes, CType, Constant, Fault, Kind, NoMemory, Said, StepTrouble};
use px_ctypes::convert;
use px_heap::{Heap, Serial, Value, heap_laws, held_laws, store_laws};
use px_regcode::{Image, Register};
use sqlite_items::at;
use std::alloc::Global;
use std::marker::Model;

/// The greatest number of bytes that a run prints.
const OUTPUT_LIMIT: usize = 67_108_864;

/// The object runtime of a run: its objects, and what it printed.
#[derive(Drop)]
pub struct Interp {
    alloc: Global,
    heap: Heap,
    output: Bytes,
}

impl Model for Interp {
    ghost use Rattle.px_interp.specs.Interps.{Interp as Parts};

    ghost Value = { Parts };

    ghost view = { λ i. record { heap = i.heap; output = i.output } };
}

impl Interp {
    /// A runtime without objects and output; it takes no memory.
    pub fn new(alloc: Global) -> Interp
        ensures objects { result.heap.slots ≡ [] }
        ensures made { result.heap.made ≡ 0 }
        ensures output { result.output ≡ [] }
    {
        Interp {
            alloc,
            heap: Heap::new(alloc),
            output: Bytes::new(alloc),
        }
    }

    /// What was printed.
    pub fn output(&self) -> &Bytes
        ensures { result.now ≡ self.now.output }
    {
        &self.output
    }

    /// What was printed, without the objects.
    pub fn into_output(self) -> Bytes
        ensures { result ≡ self.output }
    {
        let Interp {
            alloc,
            heap,
            output,
        } = self;
        output
    }

    /// Makes an object that refers to no other.
    ///
    /// # Errors
    /// Row 34 where 2^64 - 1 objects have been made; `NoMemory` where there is no memory for one.
    fn make(&mut self, value: Value) -> Result<Serial, StepTrouble>
        requires { references value ≡ [] }
        ensures made { (store : Store) → Represents self.old store → IsMadeIn store (object_value value) self.new result }
        ensures held { (others : List Reference) → AreHeld self.old.heap others → AreHeldThen self.new others result }
    {
        heap_laws(&self.heap);
        store_laws();
        held_laws();
        match self.heap.make(value) {
            Ok(of) => Ok(of),
            Err((_, trouble)) => Err(trouble),
        }
    }

    /// `text d n` and `wide d n`: the constant n as an object. Without such a constant nothing is done.
    ///
    /// # Errors
    /// Those of making an object.
    pub fn constant(
        &mut self,
        constants: &[Constant],
        d: Register,
        n: u32,
        registers: &mut Registers,
    ) -> Result<(), StepTrouble>
        ensures text { (image : ImageParts) → image.constants ≡ constants.now → IsRow image (instr.Text d n) self.old registers.old self.new registers.new result }
        ensures wide { (image : ImageParts) → image.constants ≡ constants.now → IsRow image (instr.Wide d n) self.old registers.old self.new registers.new result }
        ensures held { KeepsHeld self.old registers.old self.new registers.new }
    {
        let Some(constant) = at(constants, n as usize) else {
            return Ok(());
        };
        let value = value_of(self.alloc, constant)?;
        let of = self.make(value)?;
        registers.set(d, Slot::Object(of));
        Ok(())
    }

    /// `box T d a`: a number of the type T as an object. Where a holds none, nothing is done.
    ///
    /// # Errors
    /// Those of making an object.
    pub fn boxed(
        &mut self,
        t: CType,
        d: Register,
        a: Register,
        registers: &mut Registers,
    ) -> Result<(), StepTrouble>
        ensures row { (image : ImageParts) → IsRow image (instr.Box t d a) self.old registers.old self.new registers.new result }
        ensures held { KeepsHeld self.old registers.old self.new registers.new }
    {
        let Some(n) = registers.number(a) else {
            return Ok(());
        };
        let of = self.make(boxed(t, convert(t, n)))?;
        registers.set(d, Slot::Object(of));
        Ok(())
    }

    /// `share d a`: a second reference to the object a. Where a holds none, nothing is done.
    pub fn share(&mut self, d: Register, a: Register, registers: &mut Registers)
        requires { AreHeld self.old.heap (references_of registers.old) }
        ensures row { (image : ImageParts) → IsRow image (instr.Share d a) self.old registers.old self.new registers.new (Ok tt) }
        ensures held { KeepsHeld self.old registers.old self.new registers.new }
    {
        store_laws();
        held_laws();
        if let Some(of) = registers.object(a) {
            self.heap.share(of);
            registers.set(d, Slot::Object(of));
        }
    }

    /// `drop a`: lets the reference a go, if there is one.
    pub fn let_go(&mut self, a: Register, registers: &mut Registers)
        requires { AreHeld self.old.heap (references_of registers.old) }
        ensures row { (image : ImageParts) → IsRow image (instr.Drop a) self.old registers.old self.new registers.new (Ok tt) }
        ensures held { KeepsHeld self.old registers.old self.new registers.new }
    {
        store_laws();
        held_laws();
        if let Some(of) = registers.object(a) {
            self.heap.drop_one(of);
            registers.set(a, Slot::Empty);
        }
    }

    /// `print a..`: the texts of objects, one space between, and a line end behind. Where a register holds no object, nothing is done.
    ///
    /// # Errors
    /// Row 13 where more than 67,108,864 bytes were printed; `NoMemory` where there is no memory for the line. Then nothing is printed.
    pub fn print(
        &mut self,
        arguments: &[Register],
        registers: &Registers,
    ) -> Result<(), StepTrouble>
        requires { AreHeld self.old.heap (references_of registers.now) }
        ensures row { (image : ImageParts) → IsRow image (instr.Print arguments.now) self.old registers.now self.new registers.now result }
        ensures held { self.new.heap ≡ self.old.heap }
    {
        let line = match self.line(arguments, registers) {
            Ok(Some(line)) => line,
            Ok(None) => return Ok(()),
            Err(NoMemory) => return Err(StepTrouble::NoMemory),
        };
        if is_too_long(self.output.len(), line.len()) {
            return Err(StepTrouble::Raised(Fault {
                kind: Kind::LimitError,
                said: Said::Row(13),
            }));
        }
        self.output.extend_from_slice(line.as_slice())?;
        Ok(())
    }

    /// The texts of the objects in registers, one space between, and a line end behind; none where a register holds no object.
    fn line(&self, arguments: &[Register], registers: &Registers) -> Result<Option<Bytes>, NoMemory>
        requires { AreHeld self.now.heap (references_of registers.now) }
        ensures { IfOk result (IsLineOf (texts_in self.now.heap registers.now arguments.now)) }
    {
        let mut line = Bytes::new(self.alloc);
        for (place, a) in arguments.iter().enumerate() {
            let Some(of) = registers.object(*a) else {
                return Ok(None);
            };
            separate(&mut line, place)?;
            write_text(self.alloc, &mut line, self.heap.read(of))?;
        }
        line.push(b'\n')?;
        Ok(Some(line))
    }
}

/// Whether so many bytes and so many more are more than a run prints.
fn is_too_long(printed: usize, more: usize) -> bool
    ensures { result ≡ nat_lt output_limit (printed + more) }
{
    more > OUTPUT_LIMIT || printed > OUTPUT_LIMIT - more
}

/// A number of a type as an object refers to it: a bool of `bint`, and else an int.
fn boxed(t: CType, n: i128) -> Value
    ensures value { object_value result ≡ object_boxed t n }
    ensures alone { references result ≡ [] }
{
    match t {
        CType::Bint => Value::Bool(n != 0),
        _ => Value::Int(n),
    }
}

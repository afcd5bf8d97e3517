//! The texts of objects (Python Library Reference, print).

ghost use Rattle.std.specs.Prelude.{◌≡◌, [], ◌++◌, IfOk, OnOk};
ghost use Rattle.std.specs.Fmt.{signed_decimal};
ghost use Rattle.px_meaning.specs.Objects.{text_of, constant_object};
ghost use Rattle.px_heap.specs.References.{references};
ghost use Rattle.px_heap.specs.Stores.{object_value};
ghost use Rattle.px_interp.specs.Texts.{IsTextOf, with_space};

use itoa::Buffer;
use px_base::{Bytes, Chars, Constant, NoMemory, utf8};
use px_heap::Value;
use std::alloc::{AllocError, Global};

/// Appends the text of a number.
fn write_number(line: &mut Bytes, n: i128) -> Result<(), AllocError>
    ensures { OnOk result (line.new ≡ line.old ++ signed_decimal n) }
{
    let mut buffer = Buffer::new();
    line.extend_from_slice(buffer.format(n).as_bytes())
}

/// Appends the space that stands before the text at this place of a line, which the first one has not.
pub(crate) fn separate(line: &mut Bytes, place: usize) -> Result<(), AllocError>
    ensures { OnOk result (line.new ≡ with_space place line.old) }
{
    if place == 0 {
        return Ok(());
    }
    line.push(b' ')
}

/// Appends the text of an object. That of a container isn't built, and nothing is appended for one.
pub(crate) fn write_text(alloc: Global, line: &mut Bytes, value: &Value) -> Result<(), NoMemory>
    ensures { OnOk result (IsTextOf (text_of (object_value value.now)) line.old line.new) }
{
    match value {
        Value::Int(n) => write_number(line, *n)?,
        Value::Bool(true) => line.extend_from_slice(b"True")?,
        Value::Bool(false) => line.extend_from_slice(b"False")?,
        Value::None => line.extend_from_slice(b"None")?,
        Value::Str(text) => {
            let bytes = utf8(alloc, text)?;
            line.extend_from_slice(bytes.as_slice())?;
        }
        Value::List(_) => (),
        Value::Tuple(_) => (),
        Value::Dict(_) => (),
        Value::Array(_) => line.extend_from_slice(b"<array>")?,
    }
    Ok(())
}

/// The value of a constant.
pub(crate) fn value_of(alloc: Global, constant: &Constant) -> Result<Value, AllocError>
    ensures value { IfOk result (λ value. object_value value ≡ constant_object constant.now) }
    ensures alone { IfOk result (λ value. references value ≡ []) }
{
    match constant {
        Constant::Text(text) => {
            let copy = Chars::from_slice(alloc, text.as_slice())?;
            Ok(Value::Str(copy))
        }
        Constant::Wide(n) => Ok(Value::Int(*n)),
        Constant::None => Ok(Value::None),
    }
}

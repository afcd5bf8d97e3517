//! The text of a typed module: each node before its parts, as its form, sign, type and numbers, and behind `/` the number of its parts.

use crate::words::{constant, exceptions, lock, name, number, sign, type_word, value_type};
use px_base::NoMemory;
use px_tree::{Local, Typed, TypedFunction, TypedTree};
use px_typed_walk::TypedNode;
use px_walk::{Node, Visitor, visit};
use std::alloc::{AllocError, Global};

/// The text so far.
#[derive(Drop)]
struct Writer {
    alloc: Global,
    text: String,
}

impl<'a> Visitor<TypedNode<'a>> for Writer {
    ghost use Rattle.std.specs.Prelude.{⊤};

    type Context = ();

    ghost State = { ⊤ };

    ghost state = { λ _. tt };

    ghost down = { λ _ context node k. context };

    ghost step = { λ so_far context node. so_far };

    fn down(&self, context: (), _node: TypedNode<'a>, _k: usize) {
        context
    }

    fn visit(&mut self, _context: (), node: TypedNode<'a>) -> Result<(), NoMemory> {
        write_node(self, node)?;
        Ok(())
    }
}

fn write_node(writer: &mut Writer, node: TypedNode<'_>) -> Result<(), AllocError> {
    let head = node.head();
    let (value, flag) = number(head);
    let line = format!(in writer.alloc;
        " {},{},{},{value},{flag}/{}",
        name(head),
        sign(head),
        type_word(head),
        node.count()
    )?;
    writer.text.push_str(line.as_str())
}

fn write_trees(writer: &mut Writer, trees: &[TypedTree]) -> Result<(), NoMemory> {
    for tree in trees {
        visit(writer, (), TypedNode { tree })?;
    }
    Ok(())
}

/// A byte as `%` and two hexadecimal digits.
fn push_byte(text: &mut String, byte: u8) -> Result<(), AllocError> {
    const DIGITS: [char; 16] = [
        '0', '1', '2', '3', '4', '5', '6', '7', '8', '9', 'A', 'B', 'C', 'D', 'E', 'F',
    ];
    text.push('%')?;
    text.push(DIGITS[(byte / 16) as usize])?;
    text.push(DIGITS[(byte % 16) as usize])
}

/// A name; characters outside of ASCII by their bytes.
fn push_name(text: &mut String, name: &[char]) -> Result<(), AllocError> {
    for c in name {
        if c.is_ascii() {
            text.push(*c)?;
        } else {
            let mut buffer = [0u8; 4];
            for byte in c.encode_utf8(&mut buffer).bytes() {
                push_byte(text, byte)?;
            }
        }
    }
    Ok(())
}

fn write_local(writer: &mut Writer, local: &Local) -> Result<(), AllocError> {
    writer.text.push_str(" ")?;
    push_name(&mut writer.text, local.name.as_slice())?;
    writer.text.push_str(":")?;
    writer.text.push_str(value_type(local.value_type))
}

fn write_function(writer: &mut Writer, f: &TypedFunction) -> Result<(), NoMemory> {
    writer.text.push_str(" function ")?;
    push_name(&mut writer.text, f.name.as_slice())?;
    let line = format!(in writer.alloc;
        " {} {} {} {}/{}",
        value_type(f.gives),
        lock(f.lock),
        exceptions(f.is_noexcept),
        f.params,
        f.locals.as_slice().len()
    )?;
    writer.text.push_str(line.as_str())?;
    for local in f.locals.as_slice() {
        write_local(writer, local)?;
    }
    let count = format!(in writer.alloc; " body/{}", f.body.as_slice().len())?;
    writer.text.push_str(count.as_str())?;
    write_trees(writer, f.body.as_slice())
}

/// The text of a typed module.
pub(crate) fn text_of(alloc: Global, typed: &Typed) -> Result<String, NoMemory> {
    let code = typed.code.as_slice();
    let mut writer = Writer {
        alloc,
        text: format!(in alloc; "code/{}", code.len())?,
    };
    write_trees(&mut writer, code)?;
    for f in typed.functions.as_slice() {
        write_function(&mut writer, f)?;
    }
    writer.text.push_str(" constants")?;
    for one in typed.constants.as_slice() {
        writer.text.push_str(constant(one))?;
    }
    Ok(writer.text)
}

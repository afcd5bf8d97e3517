//! The instruction of a row.

use crate::operands::{Fields, Operands, there};
use crate::words::place;
use px_base::CType;
use px_regcode::{Instr, RegisterList};

const NUMBERS: &str =
    "Const Move Binary Unary Compare Convert Magnitude Jump Branch Return Finish Handle Unhandle Throw Caught Forget Unset Need";

const VIEWS: &str =
    "Pick Slice Axis Turned Extent Ordered Acquire Release Fill Spread Ticket Enter Leave Loop Look Claim Begin End Stop Reduce Members";

const OBJECTS: &str =
    "Text Wide Box Unbox Truth Fetch Keep Share Drop ObjectBinary ObjectUnary ObjectCompare ObjectIn ObjectGet ObjectSet ObjectCut";

const OTHERS: &str = "Raise Walk Next View Copy Said Rethrow";

const LISTS: &str = "Call Element Put List Tuple Dict Unpack Method Builtin Print Input Array";

/// The instruction with the name of a variant and these operands; `turn` where there is no such variant.
pub fn instruction(name: &str, fields: Fields) -> Instr {
    let Fields {
        operands,
        list,
        kinds,
        ..
    } = fields;
    if name == "Takes" {
        let [a, k, _, _, _, _] = operands.registers;
        return Instr::Takes(there(a), kinds, there(k).number);
    }
    with_list(name, operands, list)
}

fn with_list(name: &str, o: Operands, list: RegisterList) -> Instr {
    let [oa, ob, _, _, _, _] = o.registers;
    let a = there(oa);
    let b = there(ob);
    let t = o.ctype.unwrap_or(CType::SChar);
    match place(LISTS, name) {
        0 => Instr::Call(a.number, ob, list),
        1 => Instr::Element(t, a, b, list),
        2 => Instr::Put(t, a, list, b),
        3 => Instr::List(a, list),
        4 => Instr::Tuple(a, list),
        5 => Instr::Dict(a, list),
        6 => Instr::Unpack(a.number, b, list),
        7 => Instr::Method(o.method, a, b, list),
        8 => Instr::Builtin(o.builtin, a, list),
        9 => Instr::Print(list),
        10 => Instr::Input(a, list),
        11 => Instr::Array(a, list),
        _ => for_numbers(name, o),
    }
}

fn for_numbers(name: &str, o: Operands) -> Instr {
    let [oa, ob, oc, _, _, _] = o.registers;
    let a = there(oa);
    let b = there(ob);
    let c = there(oc);
    let t = o.ctype.unwrap_or(CType::SChar);
    match place(NUMBERS, name) {
        0 => Instr::Const(a, o.whole),
        1 => Instr::Move(a, b),
        2 => Instr::Binary(o.op, t, a, b, c, o.flag),
        3 => Instr::Unary(o.unary, t, a, b),
        4 => Instr::Compare(o.compare, t, a, b, c),
        5 => Instr::Convert(t, a, b),
        6 => Instr::Magnitude(t, a, b),
        7 => Instr::Jump(a.number),
        8 => Instr::Branch(a, b.number, c.number),
        9 => Instr::Return(a),
        10 => Instr::Finish,
        11 => Instr::Handle(a.number),
        12 => Instr::Unhandle,
        13 => Instr::Throw,
        14 => Instr::Caught(a),
        15 => Instr::Forget(a),
        16 => Instr::Unset(a),
        17 => Instr::Need(a),
        _ => for_views(name, o),
    }
}

fn for_views(name: &str, o: Operands) -> Instr {
    let [oa, ob, oc, od, oe, _] = o.registers;
    let a = there(oa);
    let b = there(ob);
    let c = there(oc);
    let t = o.ctype.unwrap_or(CType::SChar);
    match place(VIEWS, name) {
        0 => Instr::Pick(a, b, o.small, c, o.flag),
        1 => Instr::Slice(a, b, o.small, oc, od, oe),
        2 => Instr::Axis(a, b, o.small),
        3 => Instr::Turned(a, b),
        4 => Instr::Extent(a, b, o.small),
        5 => Instr::Ordered(a, o.order),
        6 => Instr::Acquire(a),
        7 => Instr::Release(a),
        8 => Instr::Fill(a, b),
        9 => Instr::Spread(a, b),
        10 => Instr::Ticket,
        11 => Instr::Enter,
        12 => Instr::Leave,
        13 => Instr::Loop(a.number, ob, c.number),
        14 => Instr::Look,
        15 => Instr::Claim,
        16 => Instr::Begin,
        17 => Instr::End,
        18 => Instr::Stop(o.stop, oa),
        19 => Instr::Reduce(o.op, t, a, b),
        20 => Instr::Members(a),
        _ => for_objects(name, o),
    }
}

fn for_objects(name: &str, o: Operands) -> Instr {
    let [oa, ob, oc, od, oe, _] = o.registers;
    let a = there(oa);
    let b = there(ob);
    let c = there(oc);
    let t = o.ctype.unwrap_or(CType::SChar);
    match place(OBJECTS, name) {
        0 => Instr::Text(a, b.number),
        1 => Instr::Wide(a, b.number),
        2 => Instr::Box(t, a, b),
        3 => Instr::Unbox(o.ctype, a, b),
        4 => Instr::Truth(a, b),
        5 => Instr::Fetch(a, b.number),
        6 => Instr::Keep(a.number, b),
        7 => Instr::Share(a, b),
        8 => Instr::Drop(a),
        9 => Instr::ObjectBinary(o.op, a, b, c),
        10 => Instr::ObjectUnary(o.unary, a, b),
        11 => Instr::ObjectCompare(o.compare, a, b, c),
        12 => Instr::ObjectIn(a, b, c),
        13 => Instr::ObjectGet(a, b, c),
        14 => Instr::ObjectSet(a, b, c),
        15 => Instr::ObjectCut(a, b, oc, od, oe),
        _ => for_others(name, o),
    }
}

fn for_others(name: &str, o: Operands) -> Instr {
    let [oa, ob, oc, od, _, _] = o.registers;
    let a = there(oa);
    let b = there(ob);
    let c = there(oc);
    let t = o.ctype.unwrap_or(CType::SChar);
    match place(OTHERS, name) {
        0 => Instr::Raise(o.kind, oa),
        1 => Instr::Walk(a, b, c),
        2 => Instr::Next(a, b, c, there(od).number),
        3 => Instr::View(t, a, b, o.small),
        4 => Instr::Copy(a, b),
        5 => Instr::Said(a, b),
        6 => Instr::Rethrow(a),
        _ => Instr::Turn,
    }
}

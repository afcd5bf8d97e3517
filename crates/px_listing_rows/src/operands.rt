//! The operands of an instruction in a row: numbers of registers, instructions and the like in their order, `-` for one that isn't there,
//! and `KEY=WORD` for the others, where KEY is one of `KEYS`. Behind `:` stand the registers of a list.

use crate::words::{binary, builtin, compare, ctype, kind, method, order, place, stop, unary};
use px_base::{BinOp, Builtin, CType, CmpOp, Kind, Method, UnOp};
use px_regcode::{Kinds, Order, Register, RegisterList, StopKind};
use std::alloc::{AllocError, Global};

const KEYS: &str = "op unary compare type method builtin order stop kind n axis flag";

/// Operands that are no lists.
#[derive(Clone, Copy)]
pub struct Operands {
    pub registers: [Option<Register>; 6],
    pub op: BinOp,
    pub unary: UnOp,
    pub compare: CmpOp,
    pub ctype: Option<CType>,
    pub method: Method,
    pub builtin: Builtin,
    pub order: Order,
    pub stop: StopKind,
    pub kind: Kind,
    pub whole: i128,
    pub small: u8,
    pub flag: bool,
}

/// All operands.
#[derive(Drop)]
pub struct Fields {
    pub operands: Operands,
    pub list: RegisterList,
    pub kinds: Kinds,
    /// How many registers stand in `operands`.
    count: usize,
}

impl Fields {
    /// The operands that a text has behind its first word.
    pub fn new(alloc: Global, text: &str) -> Result<Fields, AllocError> {
        let mut fields = Fields {
            operands: nothing(),
            list: RegisterList::new(alloc),
            kinds: Kinds::new(alloc),
            count: 0,
        };
        for field in text.split(' ').skip(1) {
            match field.split_once('=') {
                Some((key, word)) => fields.add_word(place(KEYS, key), word)?,
                None => fields.add_register(field)?,
            }
        }
        Ok(fields)
    }

    fn add_register(&mut self, field: &str) -> Result<(), AllocError> {
        if field == ":" {
            self.count = 6;
            return Ok(());
        }
        let register = match field.parse::<u32>() {
            Ok(number) => Some(Register { number }),
            Err(_) => None,
        };
        if self.count < 6 {
            self.operands.registers[self.count] = register;
            self.count += 1;
            return Ok(());
        }
        self.list.push(there(register))
    }

    fn add_word(&mut self, key: usize, word: &str) -> Result<(), AllocError> {
        match key {
            0 => self.operands.op = binary(word),
            1 => self.operands.unary = unary(word),
            2 => self.operands.compare = compare(word),
            3 => self.operands.ctype = Some(ctype(word)),
            4 => self.operands.method = method(word),
            5 => self.operands.builtin = builtin(word),
            6 => self.operands.order = order(word),
            7 => self.operands.stop = stop(word),
            8 => return self.add_kind(kind(word)),
            9 => self.operands.whole = word.parse::<i128>().unwrap_or(0),
            10 => self.operands.small = word.parse::<u8>().unwrap_or(0),
            _ => self.operands.flag = word == "yes",
        }
        Ok(())
    }

    fn add_kind(&mut self, kind: Kind) -> Result<(), AllocError> {
        self.operands.kind = kind;
        self.kinds.push(kind)
    }
}

/// Operands of which none was read.
fn nothing() -> Operands {
    Operands {
        registers: [None; 6],
        op: BinOp::Add,
        unary: UnOp::Plus,
        compare: CmpOp::Lt,
        ctype: None,
        method: Method::Append,
        builtin: Builtin::Print,
        order: Order::C,
        stop: StopKind::Break,
        kind: Kind::IndexError,
        whole: 0,
        small: 0,
        flag: false,
    }
}

/// The register, or the first one where there is none.
pub fn there(register: Option<Register>) -> Register {
    register.unwrap_or(Register { number: 0 })
}

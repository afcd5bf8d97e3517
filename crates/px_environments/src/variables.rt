//! What numbers of declarations and functions stand for.

ghost use Rattle.std.specs.Prelude.{◌≡◌, map, IfOk, OnOk, option_copied};
ghost use Rattle.px_names.specs.NamedModule.{functions_of};
ghost use Rattle.px_environments.specs.Kept.{variables_kept, signatures_kept, with_first};
ghost use Rattle.px_environments.specs.Signatures.{param_type, result_type, or_object, value_type_of, gives_of, is_def, signature_of, function_in, variable_in};

use crate::signatures::{Signature, ValueTypes, Variable};
use crate::written_types::type_of_typing;
use indexmap::IndexMap;
use px_base::{NoMemory, Sequence};
use px_names::function_item;
use px_tree::{
    Function, FunctionKind, Local, Module, ModuleItem, Param, ResultType, Type, ValueType,
};
use std::alloc::Global;

/// The variables of a function, each by the number of its declaration.
#[derive(Drop)]
pub struct Variables {
    variables: IndexMap<u32, Variable>,
}

impl Variables {
    /// The table of these variables; of several with one number it has the first.
    ///
    /// # Errors
    /// `NoMemory` where there is no memory for them.
    pub fn new(alloc: Global, locals: &[Local]) -> Result<Variables, NoMemory>
        ensures { IfOk result (λ kept. variables_kept kept ≡ variable_in 0 locals.now) }
    {
        let mut kept = Variables {
            variables: IndexMap::new(alloc),
        };
        for (slot, local) in locals.iter().enumerate() {
            kept.add(slot, local)?;
        }
        Ok(kept)
    }

    /// Puts a variable in, where there is none with its number.
    fn add(&mut self, slot: usize, local: &Local) -> Result<(), NoMemory>
        ensures { OnOk result (variables_kept self.new ≡
            with_first local.now.number (record { slot = slot; value_type = local.now.value_type }) (variables_kept self.old)) }
    {
        if self.get(local.number).is_some() {
            return Ok(());
        }
        let value_type = local.value_type;
        self.variables
            .insert(local.number, Variable { slot, value_type })?;
        Ok(())
    }

    /// The variable with the declaration of a number.
    pub fn get(&self, number: u32) -> Option<Variable>
        ensures { result ≡ variables_kept self.now number }
    {
        self.variables.get(&number).copied()
    }
}

/// The type of a parameter; none where what is written is no type.
pub fn param_type(typing: &Option<Type>) -> Option<ValueType>
    ensures { result ≡ param_type typing.now }
{
    match typing {
        None => Some(ValueType::Object),
        Some(typing) => type_of_typing(typing),
    }
}

/// The type of a result; none where what is written is no type.
pub fn result_type(gives: &ResultType) -> Option<ValueType>
    ensures { result ≡ result_type gives.now }
{
    match gives {
        ResultType::Unwritten => Some(ValueType::Object),
        ResultType::Void => Some(ValueType::Void),
        ResultType::Of(typing) => type_of_typing(typing),
    }
}

/// A type, and object where what is written is none.
pub fn or_object(t: Option<ValueType>) -> ValueType
    ensures { result ≡ or_object t }
{
    match t {
        Some(t) => t,
        None => ValueType::Object,
    }
}

/// The type of a parameter, and object where what is written is none.
pub fn value_type_of(param: &Param) -> ValueType
    ensures { result ≡ value_type_of param.now }
{
    or_object(param_type(&param.typing))
}

/// The type of a function's result, and object where what is written is none.
pub fn gives_of(function: &Function) -> ValueType
    ensures { result ≡ gives_of function.now }
{
    or_object(result_type(&function.gives))
}

fn is_def(kind: FunctionKind) -> bool
    ensures { result ≡ is_def kind }
{
    match kind {
        FunctionKind::Def => true,
        FunctionKind::Cdef => false,
        FunctionKind::Cpdef => false,
    }
}

fn params_of(alloc: Global, function: &Function) -> Result<ValueTypes, NoMemory>
    ensures { IfOk result (λ types. types ≡ map value_type_of function.now.params) }
{
    let mut types = Sequence::new(alloc);
    for param in function.params.as_slice() {
        types.push(value_type_of(param))?;
    }
    Ok(types)
}

fn signature_of(alloc: Global, place: usize, function: &Function) -> Result<Signature, NoMemory>
    ensures { IfOk result (λ signature. signature ≡ signature_of place function.now) }
{
    Ok(Signature {
        place,
        is_def: is_def(function.kind),
        params: params_of(alloc, function)?,
        gives: gives_of(function),
    })
}

/// The functions of a module, each by its number.
#[derive(Drop)]
pub struct Signatures {
    signatures: IndexMap<u32, Signature>,
}

impl Signatures {
    /// The table of the functions of a module; of several with one number it has the first.
    ///
    /// # Errors
    /// `NoMemory` where there is no memory for them.
    pub fn new(alloc: Global, module: &Module) -> Result<Signatures, NoMemory>
        ensures { IfOk result (λ kept. signatures_kept kept ≡ function_in 0 (functions_of «module».now)) }
    {
        let mut kept = Signatures {
            signatures: IndexMap::new(alloc),
        };
        let mut place = 0;
        for item in module.items.as_slice() {
            if let Some(function) = function_item(item) {
                kept.add(alloc, place, function)?;
                place += 1;
            }
        }
        Ok(kept)
    }

    /// Puts a function in, where there is none with its number.
    fn add(&mut self, alloc: Global, place: usize, function: &Function) -> Result<(), NoMemory>
        ensures { OnOk result (signatures_kept self.new ≡
            with_first function.now.number (signature_of place function.now) (signatures_kept self.old)) }
    {
        if self.get(function.number).is_some() {
            return Ok(());
        }
        let signature = signature_of(alloc, place, function)?;
        self.signatures.insert(function.number, signature)?;
        Ok(())
    }

    /// The function of a number.
    pub fn get(&self, number: u32) -> Option<&Signature>
        ensures { option_copied result ≡ signatures_kept self.now number }
    {
        self.signatures.get(&number)
    }
}

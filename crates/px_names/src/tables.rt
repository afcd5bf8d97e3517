//! What the text of a module says of its names.

ghost use Rattle.std.specs.Prelude.{◌≡◌, OnOk, false};
ghost use Rattle.std.specs.Option.{option_map, option_to_list};
ghost use Rattle.px_walk.specs.Nodes.{rose_of};
ghost use Rattle.px_walk.specs.Roses.{parts_of};
ghost use Rattle.px_names.specs.Imports.{given_by};
ghost use Rattle.px_names.specs.Kept.{names_kept};
ghost use Rattle.px_names.specs.Steps.{no_names, with_declared, with_assigned, with_globals, with_function, with_imports, names_after, after_name, is_outside};
ghost use Rattle.px_walk.specs.Forms as form;

use crate::contexts::{Context, Role, down};
use crate::imports::{Given, given_part, given_whole};
use crate::meanings::{Imported, LocalKind};
use indexmap::{IndexMap, IndexSet};
use px_base::{Chars, NoMemory};
use px_walk::{Head, Node, TreeNode, Visitor};
use std::alloc::Global;

/// A name in a function, or else in module code.
#[derive(Clone, Copy, PartialEq, Eq, Hash)]
pub(crate) struct Key<'a> {
    pub(crate) function: Option<u32>,
    pub(crate) name: &'a [char],
}

/// A parameter or a declared variable.
#[derive(Clone, Copy, PartialEq, Eq)]
pub(crate) struct Declared {
    pub(crate) number: u32,
    pub(crate) kind: LocalKind,
}

/// A function of the module.
#[derive(Clone, Copy, PartialEq, Eq)]
pub(crate) struct Defined {
    pub(crate) number: u32,
    pub(crate) params: usize,
}

/// All that a module says of its names but for module names.
pub(crate) struct Tables<'a> {
    /// Of each name the first declaration.
    pub(crate) declared: IndexMap<Key<'a>, Declared>,
    /// Of each name the number of the first target.
    pub(crate) assigned: IndexMap<Key<'a>, u32>,
    /// The names of `global`.
    pub(crate) globals: IndexSet<Key<'a>>,
    /// Of each name the first function.
    pub(crate) functions: IndexMap<&'a [char], Defined>,
    /// Of each name what the last import gives.
    pub(crate) imports: IndexMap<&'a [char], Imported>,
}

impl Drop for Tables<'_> {
    fn drop(self) {
        let Tables {
            declared,
            assigned,
            globals,
            functions,
            imports,
        } = self;
    }
}

impl<'a> Tables<'a> {
    pub(crate) fn new(alloc: Global) -> Tables<'a>
        ensures { names_kept result ≡ no_names }
    {
        Tables {
            declared: IndexMap::new(alloc),
            assigned: IndexMap::new(alloc),
            globals: IndexSet::new(alloc),
            functions: IndexMap::new(alloc),
            imports: IndexMap::new(alloc),
        }
    }

    /// The first declaration of a name in a function, or else in module code.
    pub(crate) fn declaration(&self, function: Option<u32>, name: &[char]) -> Option<Declared>
        ensures { result ≡ (names_kept self.now).declared function name.now }
    {
        self.declared.get(&Key { function, name }).copied()
    }

    /// The number of the first target there that is the name.
    pub(crate) fn assignment(&self, function: Option<u32>, name: &[char]) -> Option<u32>
        ensures { result ≡ (names_kept self.now).assigned function name.now }
    {
        self.assigned.get(&Key { function, name }).copied()
    }

    /// Whether `global` has the name there.
    pub(crate) fn is_global(&self, function: Option<u32>, name: &[char]) -> bool
        ensures { result ≡ (names_kept self.now).globals function name.now }
    {
        self.globals.contains(&Key { function, name })
    }

    /// The first function of a name.
    pub(crate) fn function(&self, name: &[char]) -> Option<Defined>
        ensures { result ≡ (names_kept self.now).functions name.now }
    {
        self.functions.get(name).copied()
    }

    /// What the last import of a name gives.
    pub(crate) fn import(&self, name: &[char]) -> Option<Imported>
        ensures { result ≡ (names_kept self.now).imports name.now }
    {
        self.imports.get(name).copied()
    }

    /// Whether assignments of a name there are those of a module name.
    pub(crate) fn is_outside(&self, function: Option<u32>, name: &[char]) -> bool
        ensures { result ≡ is_outside (names_kept self.now) function name.now }
    {
        match function {
            None => true,
            Some(_) => self.is_global(function, name) && self.declaration(function, name).is_none(),
        }
    }

    fn declare(
        &mut self,
        function: Option<u32>,
        name: &'a [char],
        declared: Declared,
    ) -> Result<(), NoMemory>
        ensures { OnOk result (names_kept self.new ≡ with_declared (names_kept self.old) function name.now declared) }
    {
        if self.declaration(function, name).is_some() {
            return Ok(());
        }
        self.declared.insert(Key { function, name }, declared)?;
        Ok(())
    }

    fn assign(
        &mut self,
        function: Option<u32>,
        name: &'a [char],
        number: u32,
    ) -> Result<(), NoMemory>
        ensures { OnOk result (names_kept self.new ≡ with_assigned (names_kept self.old) function name.now number) }
    {
        if self.assignment(function, name).is_some() {
            return Ok(());
        }
        self.assigned.insert(Key { function, name }, number)?;
        Ok(())
    }

    fn make_global(&mut self, function: Option<u32>, names: &'a [Chars]) -> Result<(), NoMemory>
        ensures { OnOk result (names_kept self.new ≡ with_globals (names_kept self.old) function names.now) }
    {
        for name in names {
            let name = name.as_slice();
            self.globals.insert(Key { function, name })?;
        }
        Ok(())
    }

    fn define(&mut self, name: &'a [char], defined: Defined) -> Result<(), NoMemory>
        ensures { OnOk result (names_kept self.new ≡ with_function (names_kept self.old) name.now defined) }
    {
        if self.function(name).is_some() {
            return Ok(());
        }
        self.functions.insert(name, defined)?;
        Ok(())
    }

    fn take_import(&mut self, given: Option<Given<'a>>) -> Result<(), NoMemory>
        ensures { OnOk result (names_kept self.new ≡ with_imports (names_kept self.old)
            (option_to_list (option_map (λ given. (given.name.now, given.what)) given.entry))) }
    {
        let Some(given) = given else {
            return Ok(());
        };
        self.imports.insert(given.name, given.what)?;
        Ok(())
    }

    fn take_parts(&mut self, names: &'a [Chars], node: TreeNode<'a>) -> Result<(), NoMemory>
        ensures { OnOk result (names_kept self.new ≡ with_imports (names_kept self.old)
            (given_by (form.ImportFrom false names.now) (parts_of (rose_of node.entry)))) }
    {
        for k in 0..node.count() {
            self.take_import(given_part(names, node.part(k).head()))?;
        }
        Ok(())
    }

    /// Takes in what a node says of names.
    fn take(&mut self, context: Context, node: TreeNode<'a>) -> Result<(), NoMemory>
        ensures { OnOk result (names_kept self.new ≡ names_after (names_kept self.old) context (rose_of node.entry)) }
    {
        let function = context.function;
        let number = node.number();
        match node.head() {
            Head::Import(_, names, alias) => self.take_import(given_whole(names, alias)),
            Head::ImportFrom(_, names) => self.take_parts(names, node),
            Head::Function(f) => {
                let params = f.params;
                self.define(f.name, Defined { number, params })
            }
            Head::Param(name, _) => {
                let kind = LocalKind::Parameter;
                self.declare(function, name, Declared { number, kind })
            }
            Head::Declarator(name) => {
                let kind = LocalKind::Variable;
                self.declare(function, name, Declared { number, kind })
            }
            Head::Global(names) => self.make_global(function, names),
            Head::Name(name) => self.take_name(context, name, number),
            _ => Ok(()),
        }
    }

    /// Takes in a name, which is assigned where it is a target.
    fn take_name(&mut self, context: Context, name: &'a [char], number: u32) -> Result<(), NoMemory>
        ensures { OnOk result (names_kept self.new ≡ after_name (names_kept self.old) context name.now number) }
    {
        match context.role {
            Role::Target => self.assign(context.function, name, number),
            _ => Ok(()),
        }
    }
}

/// Fills the tables.
impl<'a> Visitor<TreeNode<'a>> for Tables<'a> {
    ghost use Rattle.px_names.specs.Contexts.{down};
    ghost use Rattle.px_names.specs.Declarations.{Names};
    ghost use Rattle.px_names.specs.Kept.{names_kept};
    ghost use Rattle.px_names.specs.Steps.{names_after};

    type Context = Context;

    ghost State = { Names };

    ghost state = { names_kept };

    ghost down = { λ _. down };

    ghost step = { names_after };

    fn down(&self, context: Context, node: TreeNode<'a>, k: usize) -> Context {
        down(context, node, k)
    }

    fn visit(&mut self, context: Context, node: TreeNode<'a>) -> Result<(), NoMemory> {
        self.take(context, node)
    }
}

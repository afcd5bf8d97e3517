//! What names stand for.

ghost use Rattle.std.specs.Prelude.{◌≡◌, OnOk};
ghost use Rattle.px_names.specs.Kept.{names_in};
ghost use Rattle.px_names.specs.Meanings.{local_of, own_of, own_assigned, module_meaning_of, meaning_of};
ghost use Rattle.px_names.specs.Steps.{with_shared, shared_in, shared_name};

use crate::contexts::{Context, Role, down};
use crate::meanings::{LocalKind, Meaning};
use crate::tables::{Declared, Defined, Tables};
use crate::words::builtin_named;
use indexmap::IndexSet;
use px_base::NoMemory;
use px_walk::{Head, TreeNode, Visitor};

/// All that the text of a module says of its names.
pub(crate) struct Lookup<'a> {
    pub(crate) tables: Tables<'a>,
    /// The names that module code assigns, or a function with `global`.
    pub(crate) shared: IndexSet<&'a [char]>,
}

impl Drop for Lookup<'_> {
    fn drop(self) {
        let Lookup { tables, shared } = self;
    }
}

impl<'a> Lookup<'a> {
    /// The first declaration of a name in a function, or else in module code.
    pub(crate) fn declaration(&self, function: Option<u32>, name: &[char]) -> Option<Declared>
        ensures { result ≡ (names_in self.now).declared function name.now }
    {
        self.tables.declaration(function, name)
    }

    /// The first function of a name.
    pub(crate) fn function(&self, name: &[char]) -> Option<Defined>
        ensures { result ≡ (names_in self.now).functions name.now }
    {
        self.tables.function(name)
    }

    /// The local of a function that a name stands for.
    fn local(&self, function: Option<u32>, name: &[char]) -> Option<Meaning>
        ensures { result ≡ local_of (names_in self.now) function name.now }
    {
        match function {
            Some(_) => self.own(function, name),
            None => None,
        }
    }

    /// What is declared or assigned there without `global`.
    fn own(&self, function: Option<u32>, name: &[char]) -> Option<Meaning>
        ensures { result ≡ own_of (names_in self.now) function name.now }
    {
        match self.tables.declaration(function, name) {
            Some(declared) => Some(Meaning::Local(declared.number, declared.kind)),
            None => self.own_assigned(function, name),
        }
    }

    /// What is assigned there without `global`.
    fn own_assigned(&self, function: Option<u32>, name: &[char]) -> Option<Meaning>
        ensures { result ≡ own_assigned (names_in self.now) function name.now }
    {
        if self.tables.is_global(function, name) {
            return None;
        }
        match self.tables.assignment(function, name) {
            Some(number) => Some(Meaning::Local(number, LocalKind::Assigned)),
            None => None,
        }
    }

    /// What a name stands for in module code.
    pub(crate) fn module_meaning(&self, name: &[char]) -> Option<Meaning>
        ensures { result ≡ module_meaning_of (names_in self.now) name.now }
    {
        if self.shared.contains(name) {
            return Some(Meaning::Module);
        }
        if let Some(function) = self.tables.function(name) {
            return Some(Meaning::Function(function.number, function.params));
        }
        if let Some(imported) = self.tables.import(name) {
            return Some(Meaning::Import(imported));
        }
        match builtin_named(name) {
            Some(builtin) => Some(Meaning::Builtin(builtin)),
            None => None,
        }
    }

    /// What a name stands for in a function, or else in module code; none where it is unknown.
    pub(crate) fn meaning(&self, function: Option<u32>, name: &[char]) -> Option<Meaning>
        ensures { result ≡ meaning_of (names_in self.now) function name.now }
    {
        match self.local(function, name) {
            Some(local) => Some(local),
            None => self.module_meaning(name),
        }
    }

    /// Takes in a name, which counts where it is a target.
    fn take_name(&mut self, context: Context, name: &'a [char]) -> Result<(), NoMemory>
        ensures { OnOk result (names_in self.new ≡ shared_name (names_in self.old) context name.now) }
    {
        match context.role {
            Role::Target => self.share(context.function, name),
            _ => Ok(()),
        }
    }

    /// Takes in a target, which is a module name where assignments there are those of one.
    fn share(&mut self, function: Option<u32>, name: &'a [char]) -> Result<(), NoMemory>
        ensures { OnOk result (names_in self.new ≡ shared_in (names_in self.old) function name.now) }
    {
        if self.tables.is_outside(function, name) {
            self.add(name)
        } else {
            Ok(())
        }
    }

    /// Takes in a module name.
    fn add(&mut self, name: &'a [char]) -> Result<(), NoMemory>
        ensures { OnOk result (names_in self.new ≡ with_shared (names_in self.old) name.now) }
    {
        self.shared.insert(name)?;
        Ok(())
    }
}

/// Finds the module names.
impl<'a> Visitor<TreeNode<'a>> for Lookup<'a> {
    ghost use Rattle.px_names.specs.Contexts.{down};
    ghost use Rattle.px_names.specs.Declarations.{Names};
    ghost use Rattle.px_names.specs.Kept.{names_in};
    ghost use Rattle.px_names.specs.Steps.{shared_after};

    type Context = Context;

    ghost State = { Names };

    ghost state = { names_in };

    ghost down = { λ _. down };

    ghost step = { shared_after };

    fn down(&self, context: Context, node: TreeNode<'a>, k: usize) -> Context {
        down(context, node, k)
    }

    fn visit(&mut self, context: Context, node: TreeNode<'a>) -> Result<(), NoMemory> {
        match node.head() {
            Head::Name(name) => self.take_name(context, name),
            _ => Ok(()),
        }
    }
}

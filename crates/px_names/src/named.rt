//! What the phase of names gives.

ghost use Rattle.std.specs.Prelude.{◌≡◌, Some, OnOk};
ghost use Rattle.px_names.specs.Kept.{meanings_kept, no_meanings};
ghost use Rattle.px_names.specs.Steps.{with_use};

use crate::meanings::Meaning;
use crate::settings::Directives;
use indexmap::IndexMap;
use px_base::{NoMemory, Sequence};
use px_tree::Module;
use std::alloc::Global;

/// What each name that stands in a function, or else in module code, stands for.
pub struct Scope {
    pub(crate) meanings: IndexMap<u32, Meaning>,
}

impl Drop for Scope {
    fn drop(self) {
        let Scope { meanings } = self;
    }
}

impl Scope {
    pub(crate) fn new(alloc: Global) -> Scope
        ensures { meanings_kept result ≡ no_meanings }
    {
        Scope {
            meanings: IndexMap::new(alloc),
        }
    }

    /// What the name with that number, which is that of its node, stands for; none where no name of that number stands there.
    pub fn meaning(&self, name: u32) -> Option<Meaning>
        ensures { result ≡ meanings_kept self.now name }
    {
        self.meanings.get(&name).copied()
    }

    pub(crate) fn set(&mut self, name: u32, meaning: Meaning) -> Result<(), NoMemory>
        ensures { OnOk result (meanings_kept self.new ≡ with_use (Some (name, meaning)) (meanings_kept self.old)) }
    {
        self.meanings.insert(name, meaning)?;
        Ok(())
    }
}

/// A function or module code: what its names stand for, and its directives.
pub struct NamedCode {
    pub scope: Scope,
    pub directives: Directives,
}

impl Drop for NamedCode {
    fn drop(self) {
        let NamedCode { scope, directives } = self;
    }
}

/// The functions of a module, in the order of the text.
pub type NamedFunctions = Sequence<NamedCode>;

/// A module that breaks no rule of names.
#[derive(Drop)]
pub struct Named {
    pub module: Module,
    pub code: NamedCode,
    pub functions: NamedFunctions,
}

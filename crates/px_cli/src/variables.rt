//! The variables of a run, by their names.

ghost use Rattle.std.specs.Prelude.{◌≡◌, None, OnOk};
ghost use Rattle.px_cli.specs.FirstMeaning.{Assigns, no_values};
ghost use Rattle.px_cli.specs.KeptValues.{values_of};

use indexmap::IndexMap;
use px_base::NoMemory;
use std::alloc::Global;

/// The value of each variable that is declared so far; the names are those of the tree.
#[derive(Drop)]
pub struct Variables<'a> {
    values: IndexMap<&'a [char], i128>,
}

impl<'a> Variables<'a> {
    pub(crate) fn new(alloc: Global) -> Variables<'a>
        ensures { values_of result ≡ no_values }
    {
        Variables {
            values: IndexMap::new(alloc),
        }
    }

    /// The value of a variable, if it is declared.
    pub(crate) fn value(&self, name: &[char]) -> Option<i128>
        ensures { result ≡ values_of self.now name.now }
    {
        self.values.get(name).copied()
    }

    /// Gives a variable a value; it is declared then.
    ///
    /// # Errors
    /// `NoMemory` where there is no memory for another variable.
    pub(crate) fn set(&mut self, name: &'a [char], value: i128) -> Result<(), NoMemory>
        ensures { OnOk result (Assigns (values_of self.old) name.now value (values_of self.new)) }
    {
        self.values.insert(name, value)?;
        Ok(())
    }
}

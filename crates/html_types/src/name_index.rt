//! An index of names, for tags with many attributes.

ghost use Rattle.std.specs.Prelude.{◌≡◌, List, ℕ, Bool, false, ◌||◌, IfOk, OnOk, OnErr};
ghost use Rattle.html_types.specs.Text.{same_text};
ghost use Rattle.html_types.specs.Attributes.{has_name, Finds};

use crate::attributes::Attribute;
use crate::memory::NoMemory;
use crate::text::Text;
use std::alloc::Global;
use std::collections::BTreeSet;

/// Names, each found in the logarithm of their number.
#[derive(Drop)]
pub(crate) struct NameIndex {
    names: BTreeSet<String>,
}

impl NameIndex {
    /// No names, which take no memory.
    pub(crate) fn new(alloc: Global) -> NameIndex
        ensures { Finds result.names (λ name. false) }
    {
        NameIndex {
            names: BTreeSet::new(alloc),
        }
    }

    /// Adds a name.
    pub(crate) fn add(&mut self, alloc: Global, name: &Text) -> Result<(), NoMemory>
        ensures ok { OnOk result
            ((f : List ℕ → Bool) → Finds self.old.names f
            → Finds self.new.names (λ n. same_text name.now n || f n)) }
        ensures err { OnErr result
            ((f : List ℕ → Bool) → Finds self.old.names f → Finds self.new.names f) }
    {
        let copied = String::from_str(alloc, name.as_str())?;
        self.names.insert(copied)?;
        Ok(())
    }

    /// Whether it has the name.
    pub(crate) fn has(&self, name: &Text) -> bool
        ensures { (f : List ℕ → Bool) → Finds self.now.names f → result ≡ f name.now }
    {
        self.names.contains(name.as_str())
    }

    /// The names of attributes.
    pub(crate) fn of(alloc: Global, list: &[Attribute]) -> Result<NameIndex, NoMemory>
        ensures { IfOk result (λ index. Finds index.names (λ name. has_name name list.now)) }
    {
        let mut index = NameIndex::new(alloc);
        for attribute in list {
            index.add(alloc, &attribute.name)?;
        }
        Ok(index)
    }
}

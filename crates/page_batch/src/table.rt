// The scripts that a batch has fetched.
ghost use Rattle.std.specs.Prelude.{◌≡◌, ◌∷◌, [], OnOk, OnErr, IfSome, IfNone, None, Some};
ghost use Rattle.std.specs.Str.{chars};
ghost use Rattle.core_steps.specs.Fetches.{fetched_of};
ghost use Rattle.core_steps.specs.Journals.{found};

use core_steps::{Fetch, FetchedFile};
use html_types::{NoMemory, Text};
use std::alloc::Global;
use std::collections::BTreeMap;
use std::marker::Model;
use std::snapshot::Snapshot;

/// The names that were fetched in a batch, each with what came of it. A contract sees them in their
/// order, the latest first.
#[derive(Drop)]
pub struct ScriptTable {
    alloc: Global,
    files: BTreeMap<String, Fetch>,
    // The same, the latest last, for contracts alone.
    fetched: Vec<Snapshot<FetchedFile>>,
}

impl Model for ScriptTable {
    ghost use Rattle.std.specs.Prelude.{reverse};
    ghost use Rattle.core_steps.specs.Fetches.{fetches_of};
    ghost use Rattle.core_steps.specs.Journals.{AreIndexed};
    ghost use Rattle.page_turns.specs.Scripts.{Met};

    ghost Value = { Met };

    ghost view = { λ t. fetches_of (reverse t.fetched.items) };

    ghost invariant = { λ t. AreIndexed t.files (fetches_of (reverse t.fetched.items)) };
}

impl ScriptTable {
    /// None is fetched.
    pub fn new(alloc: Global) -> ScriptTable
        ensures { result ≡ [] }
    {
        ScriptTable {
            alloc,
            files: BTreeMap::new(alloc),
            fetched: Vec::new(alloc),
        }
    }

    /// What came of the script of that name, where it was fetched.
    pub fn find(&self, name: &str) -> Option<&Fetch>
        ensures found { IfSome result (λ fetch.
            found (chars name.now) self.now ≡ Some (fetched_of fetch.now)) }
        ensures none { IfNone result (found (chars name.now) self.now ≡ None) }
    {
        self.files.get(name)
    }

    /// Adds a script that was fetched.
    pub fn add(&mut self, name: Text, fetch: Fetch) -> Result<(), NoMemory>
        ensures ok { OnOk result (self.new ≡ (name, fetched_of fetch) ∷ self.old) }
        ensures err { OnErr result (self.new ≡ self.old) }
    {
        let key = String::from_str(self.alloc, name.as_str())?;
        self.fetched.reserve(1)?;
        let file = FetchedFile { name, fetch };
        let fetched = Snapshot::of(&file);
        let FetchedFile { name, fetch } = file;
        drop(name);
        self.files.insert(key, fetch)?;
        self.fetched.push_reserved(fetched);
        Ok(())
    }
}

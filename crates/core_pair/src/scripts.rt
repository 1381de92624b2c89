//! The files of scripts, by their names.

ghost use Rattle.std.specs.Prelude.{◌≡◌, [], ◌∷◌, ◌++◌, None, Some, OnOk, OnErr, IfOk, IfSome};
ghost use Rattle.std.specs.Prelude.{IfNone};
ghost use Rattle.std.specs.Str.{chars};
ghost use Rattle.core_steps.specs.Acting.{fetch_or_missing};
ghost use Rattle.core_steps.specs.Fetches.{fetched_of};
ghost use Rattle.core_pair.specs.Files.{files_of};
ghost use Rattle.core_steps.specs.Journals.{found};

use core_steps::{Fetch, FetchedFile};
use html_types::{NoMemory, Text};
use std::alloc::Global;
use std::marker::Model;

/// What comes of fetching scripts, by their names: a contract sees the list of them. Of two with
/// one name the first counts.
#[derive(Drop)]
pub struct Scripts {
    files: Vec<FetchedFile>,
}

impl Model for Scripts {
    ghost use Rattle.std.specs.Prelude.{List, ℕ};
    ghost use Rattle.serial.specs.Scripts.{Fetched};

    ghost Value = { List (List ℕ × Fetched) };

    ghost use Rattle.core_pair.specs.Files.{files_of};

    ghost view = { λ s. files_of s.files.items };
}

// What comes of the script of that name, where it is listed.
fn find_in<'a>(files: &'a [FetchedFile], name: &str) -> Option<&'a Fetch>
    ensures found { IfSome result
        (λ fetch. found (chars name.now) (files_of files.now) ≡ Some (fetched_of fetch.now)) }
    ensures none { IfNone result (found (chars name.now) (files_of files.now) ≡ None) }
{
    let mut rest = files;
    'files: while let Some((first, behind)) = rest.split_first() {
        if first.name.is(name) {
            return Some(&first.fetch);
        }
        rest = behind;
    }
    None
}

impl Scripts {
    /// No files, which take no memory.
    pub fn new(alloc: Global) -> Scripts
        ensures { result ≡ [] }
    {
        Scripts {
            files: Vec::new(alloc),
        }
    }

    /// Adds what comes of fetching the script of that name.
    pub fn add(&mut self, name: Text, fetch: Fetch) -> Result<(), NoMemory>
        ensures ok { OnOk result (self.new ≡ self.old ++ (name, fetched_of fetch) ∷ []) }
        ensures err { OnErr result (self.new ≡ self.old) }
    {
        self.files.push(FetchedFile { name, fetch })?;
        Ok(())
    }

    /// Sets what comes of fetching the script of that name.
    pub fn bring(&mut self, name: Text, fetch: Fetch) -> Result<(), NoMemory>
        ensures ok { OnOk result (self.new ≡ (name, fetched_of fetch) ∷ self.old) }
        ensures err { OnErr result (self.new ≡ self.old) }
    {
        self.files.insert(0, FetchedFile { name, fetch })?;
        Ok(())
    }

    /// What comes of fetching the script of that name: it is missing where it isn't listed.
    pub fn fetch(&self, alloc: Global, name: &str) -> Result<Fetch, NoMemory>
        ensures { IfOk result
            (λ f. fetched_of f ≡ fetch_or_missing (found (chars name.now) self.now)) }
    {
        match find_in(self.files.as_slice(), name) {
            Some(fetch) => fetch.copy(alloc),
            None => Ok(Fetch::Missing),
        }
    }
}

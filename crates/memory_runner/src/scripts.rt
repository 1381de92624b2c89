//! The scripts of a page, under their names.

ghost use Rattle.std.specs.Prelude.{◌≡◌, Some, codes, if◌then◌else◌, IfOk, OnOk};
ghost use Rattle.std.specs.Str.{bytes_eq};
ghost use Rattle.serial.specs.Scripts.{got, missing};
ghost use Rattle.outside.specs.Memory.{files_of};
ghost use Rattle.memory_runner.specs.Runs.{path_in, scripts_in};

use html_types::NoMemory;
use outside::NeverFails;
use std::alloc::Global;

/// The folder in which they stand; the page stands beside it.
pub(crate) const FOLDER: &str = "s";

pub(crate) const PAGE: &str = "p";

/// The scripts of a page, under their names.
#[derive(Drop)]
pub struct Scripts {
    alloc: Global,
    pub(crate) files: NeverFails,
}

impl Scripts {
    /// None.
    pub fn new(alloc: Global) -> Scripts
        ensures { (name : _) → scripts_in result name ≡ missing }
    {
        Scripts {
            alloc,
            files: NeverFails::new(alloc),
        }
    }

    /// Adds a script. A name that is there gets the new bytes.
    pub fn add(&mut self, name: &str, bytes: &[u8]) -> Result<(), NoMemory>
        ensures { OnOk result ((other : _) → scripts_in self.new other
            ≡ (if bytes_eq name.now other then got bytes.now else scripts_in self.old other)) }
    {
        let alloc = self.alloc;
        let dir = FOLDER;
        let path = format!(in alloc; "{dir}/{name}")?;
        self.files.add(path.as_str(), bytes)?;
        Ok(())
    }
}

/// The files of a page and of its scripts.
pub(crate) fn files_with(scripts: Scripts, page: &[u8]) -> Result<NeverFails, NoMemory>
    ensures page { IfOk result (λ files. files_of files (codes "p") ≡ Some page.now) }
    ensures scripts { IfOk result (λ files. (name : _)
        → files_of files (path_in name) ≡ files_of scripts.files (path_in name)) }
{
    let mut files = scripts.files;
    files.add(PAGE, page)?;
    Ok(files)
}

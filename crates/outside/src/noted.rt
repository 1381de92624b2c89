// The paths that were begun, as the outsides in memory note them.
ghost use Rattle.std.specs.Prelude.{◌≡◌, [], ◌∷◌, ◌++◌, Some, map, OnOk};
ghost use Rattle.std.specs.String.{string_bytes};
ghost use Rattle.outside.specs.Noted.{told, noted_at};
ghost use Rattle.outside.specs.Outside.{Begun, OthersStay};

use crate::Port;
use html_types::NoMemory;
use std::alloc::Global;

/// The paths that were begun at a port, in order. Where memory runs out it tells none from then on.
#[derive(Drop)]
pub struct NotedPaths {
    pub texts: Vec<String>,
    pub is_whole: bool,
}

impl NotedPaths {
    fn new(alloc: Global) -> Self
        ensures { told result ≡ Some [] }
    {
        NotedPaths {
            texts: Vec::new(alloc),
            is_whole: true,
        }
    }

    fn push(&mut self, alloc: Global, path: &str) -> Result<(), NoMemory>
        ensures pushed { OnOk result
            (map string_bytes self.new.texts.items ≡ map string_bytes self.old.texts.items
            ++ path.now ∷ []) }
        ensures whole { self.new.is_whole ≡ self.old.is_whole }
    {
        self.texts.push(String::from_str(alloc, path)?)?;
        Ok(())
    }

    fn note(&mut self, alloc: Global, path: &str)
        ensures { Begun (told self.old) (told self.new) (path.now ∷ []) }
    {
        if self.push(alloc, path).is_err() {
            self.is_whole = false;
        }
    }
}

/// The paths that were begun at each port.
#[derive(Drop)]
pub struct Noted {
    entities: NotedPaths,
    list: NotedPaths,
    page: NotedPaths,
    script: NotedPaths,
}

impl Noted {
    /// None at any port.
    pub fn new(alloc: Global) -> Self
        ensures { (port : _) → noted_at result port ≡ Some [] }
    {
        Noted {
            entities: NotedPaths::new(alloc),
            list: NotedPaths::new(alloc),
            page: NotedPaths::new(alloc),
            script: NotedPaths::new(alloc),
        }
    }

    /// One more at this port.
    pub fn note(&mut self, alloc: Global, port: Port, path: &str)
        ensures here { Begun (noted_at self.old port) (noted_at self.new port) (path.now ∷ []) }
        ensures others { OthersStay port (noted_at self.old) (noted_at self.new) }
    {
        match port {
            Port::Entities => self.entities.note(alloc, path),
            Port::List => self.list.note(alloc, path),
            Port::Page => self.page.note(alloc, path),
            Port::Script => self.script.note(alloc, path),
        }
    }
}

// The calls that were made at each port, as the outsides in memory note them.
ghost use Rattle.std.specs.Prelude.{◌≡◌, [], ◌∷◌, ◌++◌, Some, map, OnOk};
ghost use Rattle.outside.specs.Calls.{call_of, told_calls, calls_at};
ghost use Rattle.outside.specs.Outside.{begins, reads, Called, OthersStay};

use crate::{Failed, Port};
use html_types::NoMemory;
use std::alloc::Global;

/// A call at a port, and what it answered.
#[derive(Drop)]
pub enum CallMade {
    /// The file at this path was to be begun.
    Begin(String, Result<bool, Failed>),
    /// So many bytes at most were to be read.
    Read(usize, Result<usize, Failed>),
}

/// The calls that were made at a port, in order. Where memory runs out it tells none from then on.
#[derive(Drop)]
pub struct PortCalls {
    pub made: Vec<CallMade>,
    pub is_whole: bool,
}

impl PortCalls {
    fn new(alloc: Global) -> Self
        ensures { told_calls result ≡ Some [] }
    {
        PortCalls {
            made: Vec::new(alloc),
            is_whole: true,
        }
    }

    fn push(&mut self, call: CallMade) -> Result<(), NoMemory>
        ensures pushed { OnOk result (map call_of self.new.made.items
            ≡ map call_of self.old.made.items ++ call_of call ∷ []) }
        ensures whole { self.new.is_whole ≡ self.old.is_whole }
    {
        self.made.push(call)?;
        Ok(())
    }

    fn note(&mut self, call: CallMade)
        ensures { Called (told_calls self.old) (told_calls self.new) (call_of call ∷ []) }
    {
        if self.push(call).is_err() {
            self.is_whole = false;
        }
    }

    fn note_begin(&mut self, alloc: Global, path: &str, answer: Result<bool, Failed>)
        ensures { Called (told_calls self.old) (told_calls self.new) (begins path.now answer ∷ []) }
    {
        match String::from_str(alloc, path) {
            Ok(path) => self.note(CallMade::Begin(path, answer)),
            Err(_) => self.is_whole = false,
        }
    }
}

/// The calls that were made at each port.
#[derive(Drop)]
pub struct CallLog {
    entities: PortCalls,
    list: PortCalls,
    page: PortCalls,
    script: PortCalls,
}

impl CallLog {
    /// None at any port.
    pub fn new(alloc: Global) -> Self
        ensures { (port : _) → calls_at result port ≡ Some [] }
    {
        CallLog {
            entities: PortCalls::new(alloc),
            list: PortCalls::new(alloc),
            page: PortCalls::new(alloc),
            script: PortCalls::new(alloc),
        }
    }

    /// One that was to begin a file.
    pub fn note_begin(
        &mut self,
        alloc: Global,
        port: Port,
        path: &str,
        answer: Result<bool, Failed>,
    )
        ensures here { Called (calls_at self.old port) (calls_at self.new port)
            (begins path.now answer ∷ []) }
        ensures others { OthersStay port (calls_at self.old) (calls_at self.new) }
    {
        match port {
            Port::Entities => self.entities.note_begin(alloc, path, answer),
            Port::List => self.list.note_begin(alloc, path, answer),
            Port::Page => self.page.note_begin(alloc, path, answer),
            Port::Script => self.script.note_begin(alloc, path, answer),
        }
    }

    /// One that was to read so many bytes at most.
    pub fn note_read(&mut self, port: Port, most: usize, answer: Result<usize, Failed>)
        ensures here { Called (calls_at self.old port) (calls_at self.new port)
            (reads most answer ∷ []) }
        ensures others { OthersStay port (calls_at self.old) (calls_at self.new) }
    {
        let call = CallMade::Read(most, answer);
        match port {
            Port::Entities => self.entities.note(call),
            Port::List => self.list.note(call),
            Port::Page => self.page.note(call),
            Port::Script => self.script.note(call),
        }
    }
}

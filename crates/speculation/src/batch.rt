//! Batches: texts that were parsed, and whose operations aren't executed yet.

ghost use Rattle.std.specs.Prelude.{◌≡◌, ◌<◌, [], ◌∷◌, ◌++◌, length, slice_get, Some, OnOk, OnErr};
ghost use Rattle.std.specs.Prelude.{MatchOption};
ghost use Rattle.core_definitions.specs.Settling.{is_empty as has_none};
ghost use Rattle.speculation.specs.Halting.{halt_of};

use crate::checkpoint::Checkpoint;
use html_types::{NoMemory, Stop};
use page_pieces::SharedText;
use parse_machine::{End, Machine};
use std::alloc::Global;
use std::collections::VecDeque;
use std::marker::Model;
use std::snapshot::Snapshot;
use text_store::Ops;

/// Why a batch ends.
#[derive(Clone, Copy, PartialEq, Eq)]
pub enum Halt {
    /// The parser used all its text, or stopped in it.
    At(Stop),
    /// The parse is over: the batch carries the page's ending.
    Over(End),
}

/// A text that was parsed: the parser's state before it and behind it, its operations, and why it
/// ends. The page's ending goes with an empty text.
#[derive(Drop)]
pub struct Batch {
    // A batch begins where the one before it ends, so that no machine is held for it.
    pub(crate) start: Snapshot<Machine>,
    pub(crate) text: SharedText,
    pub(crate) ops: Ops,
    pub(crate) after: Checkpoint,
    pub(crate) halt: Halt,
}

impl Model for Batch {
    ghost use Rattle.core_definitions.specs.Batches as rules;
    ghost use Rattle.speculation.specs.Halting.{halt_of};

    ghost Value = { rules.Batch };

    ghost view = { λ b.
        record {
          start = b.start.value;
          text = b.text;
          ops = b.ops;
          after = b.after;
          halt = halt_of b.halt;
        } };
}

impl Batch {
    /// Its text.
    pub fn text(&self) -> &SharedText
        ensures { result.now ≡ self.now.text }
    {
        &self.text
    }

    /// Why it ends.
    pub fn halt(&self) -> Halt
        ensures { halt_of result ≡ self.now.halt }
    {
        self.halt
    }

    /// Its operations, to read.
    pub fn ops(&self) -> &Ops
        ensures { result.now ≡ self.now.ops }
    {
        &self.ops
    }

    /// Its operations, and the parser's state behind its text.
    pub fn into_parts(self) -> (Ops, Checkpoint)
        ensures ops { result.0 ≡ self.ops }
        ensures after { result.1 ≡ self.after }
    {
        let Batch {
            start: _start,
            text: _text,
            ops,
            after,
            halt: _halt,
        } = self;
        (ops, after)
    }
}

/// Batches in order: a contract sees the list of them.
#[derive(Drop)]
pub struct Batches {
    list: VecDeque<Batch>,
    // For so many operations the next batch has room.
    room: usize,
}

impl Model for Batches {
    ghost use Rattle.std.specs.Prelude.{List};
    ghost use Rattle.core_definitions.specs.Batches as rules;

    ghost Value = { List rules.Batch };

    ghost view = { λ b. b.list.items };
}

impl Batches {
    /// No batches, which take no memory.
    pub fn new(alloc: Global) -> Batches
        ensures { result ≡ [] }
    {
        Batches::with_room(alloc, 0)
    }

    /// No batches, which take no memory. The first will have room for so many operations.
    pub fn with_room(alloc: Global, room: usize) -> Batches
        ensures { result ≡ [] }
    {
        Batches {
            list: VecDeque::new(alloc),
            room,
        }
    }

    /// For how many operations the next batch has room: for somewhat more than the last came to.
    pub fn room(&self) -> usize {
        self.room
    }

    /// How many they are.
    pub fn len(&self) -> usize
        ensures { result ≡ length self.now }
    {
        self.list.len()
    }

    /// Whether there is none.
    pub fn is_empty(&self) -> bool
        ensures { result ≡ has_none self.now }
    {
        self.list.is_empty()
    }

    /// The batch at a place, to read.
    pub fn at(&self, place: usize) -> &Batch
        requires { place < length self.now }
        ensures { slice_get self.now place ≡ Some result.now }
    {
        &self.list[place]
    }

    /// Adds a batch at the end.
    pub fn push(&mut self, batch: Batch) -> Result<(), NoMemory>
        ensures ok { OnOk result (self.new ≡ self.old ++ batch ∷ []) }
        ensures err { OnErr result (self.new ≡ self.old) }
    {
        let came_to = batch.ops.stored();
        self.list.push_back(batch)?;
        self.room = came_to.saturating_add(came_to / 8);
        Ok(())
    }

    /// Takes the first batch.
    pub fn pop(&mut self) -> Option<Batch>
        ensures { MatchOption result ((self.old ≡ []) × (self.new ≡ []))
            (λ b. self.old ≡ b ∷ self.new) }
    {
        self.list.pop_front()
    }
}

//! The document as watchers see it, of which there are two copies.

ghost use Rattle.std.specs.Prelude.{◌≡◌, false, [], IfOk, IfSome, OnOk, OnErr, IsTrue};

use doc_changes::Change;
use html_types::NoMemory;
use op_exec::Doc;
use std::alloc::{AllocError, Global};
use std::marker::Model;
use std::snapshot::Snapshot;
use two_copies::Absorb;

/// What the board is told.
#[derive(Drop)]
pub enum Note {
    /// It is open. It is the first note, so that the rule knows from then on who publishes.
    Opened,
    /// The document changed.
    Did(Change),
    /// Nothing more is published.
    Last,
}

/// What both copies have in common. No value of it is made.
pub struct Stand {
    pub doc: Doc,
    pub changes: u64,
    pub opened: bool,
    pub last: bool,
}

/// A copy. Where a change found no memory it is spoiled, takes no change any more, and stands for
/// what it was before.
#[derive(Drop)]
pub struct Shown {
    doc: Doc,
    good: Snapshot<Doc>,
    changes: u64,
    opened: bool,
    last: bool,
    spoiled: bool,
}

impl Model for Shown {
    ghost use Rattle.std.specs.Prelude.{◌≡◌, false};
    ghost use Rattle.tree_watch.specs.declared.shown.Stand.{Stand as State};

    ghost Value = { State };

    ghost view = { λ s. record {
      doc = s.good.value;
      changes = s.changes;
      opened = s.opened;
      last = s.last;
    } };

    ghost invariant = { λ s. s.spoiled ≡ false → s.doc ≡ s.good.value };
}

impl Shown {
    ghost use Rattle.tree_watch.specs.Notes.{start};

    /// The empty document.
    pub fn new(alloc: Global) -> Result<Shown, NoMemory>
        ensures { IfOk result (λ shown. shown ≡ start) }
    {
        let doc = Doc::new(alloc)?;
        let good = Snapshot::of(&doc);
        Ok(Shown {
            doc,
            good,
            changes: 0,
            opened: false,
            last: false,
            spoiled: false,
        })
    }

    /// As how many the changes count of which it is made.
    pub fn changes(&self) -> u64
        ensures { result ≡ self.now.changes }
    {
        self.changes
    }

    /// Whether nothing more is published.
    pub fn is_last(&self) -> bool
        ensures { result ≡ self.now.last }
    {
        self.last
    }

    /// The document; none where the copy is spoiled.
    pub fn doc(&self) -> Option<&Doc>
        ensures { IfSome result (λ doc. doc.now ≡ self.now.doc) }
    {
        if self.spoiled {
            return None;
        }
        Some(&self.doc)
    }

    ghost use Rattle.doc_changes.specs.Changes.{changed, weight};
    ghost use Rattle.tree_watch.specs.Notes.{noted};
    ghost use Rattle.tree_watch.specs.declared.shown.Note.TheVariants as note;

    // Changes the document as another was changed.
    fn change(&mut self, change: &Change) -> Result<(), NoMemory>
        ensures ok { OnOk result (self.new ≡ noted self.old (note.Did change.now)) }
        ensures err { OnErr result (self.new ≡ self.old) }
    {
        if self.spoiled {
            return Err(NoMemory);
        }
        let weight = change.weight()? as u64;
        let changes = self.changes.checked_add(weight).ok_or(NoMemory)?;
        self.spoiled = true;
        change.repeat(&mut self.doc)?;
        self.good = Snapshot::of(&self.doc);
        self.changes = changes;
        self.spoiled = false;
        Ok(())
    }
}

impl Absorb<Note> for Shown {
    ghost use Rattle.tree_watch.specs.Notes.{noted};

    type State = Stand;

    ghost state = { λ s. s };

    ghost applied = { noted };

    fn absorb_first(&mut self, operation: &Note, _other: &Shown) -> Result<(), AllocError> {
        match operation {
            Note::Did(change) => self.change(change)?,
            Note::Opened => self.opened = true,
            Note::Last => self.last = true,
        }
        Ok(())
    }
}

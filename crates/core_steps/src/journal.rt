//! The journal of a run.

ghost use Rattle.std.specs.Prelude.{◌≡◌, ◌++◌, ◌∷◌, [], None, Some, OnOk, OnErr, IfSome, IfNone};
ghost use Rattle.std.specs.Prelude.{length};
ghost use Rattle.std.specs.Str.{chars};
ghost use Rattle.core_definitions.specs.declared.event.Event.TheVariants.{Arrive as arrived};
ghost use Rattle.core_steps.specs.Fetches.{fetched_of};
ghost use Rattle.core_steps.specs.Journals.{empty_journal, found};

use crate::fetch::{Fetch, FetchedFile};
use core_definitions::Event;
use html_types::{Ending, NoMemory, Text};
use page_pieces::SharedText;
use std::alloc::Global;
use std::collections::BTreeMap;
use std::marker::Model;
use std::snapshot::Snapshot;

/// What a run leaves behind: the pieces of the page's text as they were read, its ending where that
/// was read, each name that was fetched with what came of it, the latest first, and the events of
/// the document's side. The pieces are held no more: only contracts see their texts.
#[derive(Drop)]
pub struct Journal {
    alloc: Global,
    pieces: Vec<Snapshot<SharedText>>,
    ending: Option<Ending>,
    fetches: BTreeMap<String, Fetch>,
    // The same, the latest last. A contract sees them in this order.
    fetched: Vec<Snapshot<FetchedFile>>,
    events: Vec<Event>,
    // A measure, which a contract doesn't see.
    parsed_here: u64,
}

impl Model for Journal {
    ghost use Rattle.core_definitions.specs.Journal as rules;
    ghost use Rattle.std.specs.Prelude.{reverse};
    ghost use Rattle.core_steps.specs.Fetches.{fetches_of};
    ghost use Rattle.core_steps.specs.Journals.{AreIndexed, pieces_read};

    ghost Value = { rules.Journal };

    ghost view = { λ j.
        record {
          pieces = pieces_read j.pieces.items;
          ending = j.ending;
          fetches = fetches_of (reverse j.fetched.items);
          events = j.events.items;
        } };

    ghost invariant = { λ j. AreIndexed j.fetches (fetches_of (reverse j.fetched.items)) };
}

impl Journal {
    /// Nothing is read, fetched or done.
    pub fn new(alloc: Global) -> Journal
        ensures { result ≡ empty_journal }
    {
        Journal {
            alloc,
            pieces: Vec::new(alloc),
            ending: None,
            fetches: BTreeMap::new(alloc),
            fetched: Vec::new(alloc),
            events: Vec::new(alloc),
            parsed_here: 0,
        }
    }

    /// How many pieces were read.
    pub fn piece_count(&self) -> usize
        ensures { result ≡ length self.now.pieces }
    {
        self.pieces.len()
    }

    /// The page's ending, where it was read.
    pub fn ending(&self) -> Option<Ending>
        ensures { result ≡ self.now.ending }
    {
        self.ending
    }

    /// The events.
    pub fn events(&self) -> &[Event]
        ensures { result.now ≡ self.now.events }
    {
        self.events.as_slice()
    }

    /// How many characters of the page the document's side parsed itself, where it had no batch
    /// that holds a machine. It measures, and tells nothing of what the events come to.
    pub fn parsed_here(&self) -> u64 {
        self.parsed_here
    }

    /// What came of the script of that name, where it was fetched.
    pub fn find(&self, name: &str) -> Option<&Fetch>
        ensures found { IfSome result
            (λ fetch. found (chars name.now) self.now.fetches ≡ Some (fetched_of fetch.now)) }
        ensures none { IfNone result (found (chars name.now) self.now.fetches ≡ None) }
    {
        self.fetches.get(name)
    }

    /// Adds a piece that was read.
    pub(crate) fn add_piece(&mut self, piece: Snapshot<SharedText>) -> Result<(), NoMemory>
        ensures ok { OnOk result
            (self.new ≡ record self.old { pieces = self.old.pieces ++ piece.value ∷ [] }) }
        ensures err { OnErr result (self.new ≡ self.old) }
    {
        self.pieces.push(piece)?;
        Ok(())
    }

    /// The page's ending was read. It takes no memory.
    pub(crate) fn set_ending(&mut self, ending: Ending)
        ensures { self.new ≡ record self.old { ending = Some ending } }
    {
        self.ending = Some(ending);
    }

    /// The document's side parsed so many characters of the page itself.
    pub(crate) fn count_parsed(&mut self, characters: u64)
        ensures { self.new ≡ self.old }
    {
        self.parsed_here = self.parsed_here.saturating_add(characters);
    }

    /// Adds an event.
    pub(crate) fn add_event(&mut self, event: Event) -> Result<(), NoMemory>
        ensures ok { OnOk result
            (self.new ≡ record self.old { events = self.old.events ++ event ∷ [] }) }
        ensures err { OnErr result (self.new ≡ self.old) }
    {
        self.events.push(event)?;
        Ok(())
    }

    /// The fetch of the script of that name has returned.
    pub(crate) fn add_fetch(&mut self, name: Text, fetch: Fetch) -> Result<(), NoMemory>
        ensures ok { OnOk result
            (self.new
            ≡ record self.old {
              fetches = (name, fetched_of fetch) ∷ self.old.fetches;
              events = self.old.events ++ arrived name ∷ [];
            }) }
        ensures err { OnErr result (self.new ≡ self.old) }
    {
        let key = String::from_str(self.alloc, name.as_str())?;
        self.events.reserve(1)?;
        self.fetched.reserve(1)?;
        let file = FetchedFile { name, fetch };
        let fetched = Snapshot::of(&file);
        let FetchedFile { name, fetch } = file;
        self.fetches.insert(key, fetch)?;
        self.fetched.push_reserved(fetched);
        self.events.push_reserved(Event::Arrive(name));
        Ok(())
    }
}

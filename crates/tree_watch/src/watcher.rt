//! Who watches the document while it grows.

ghost use Rattle.std.specs.Prelude.{◌≡◌, IfOk, IfSome, IsTrue};
ghost use Rattle.tree_watch.specs.Rule.{StartsWith, latest, newcomer};

use crate::board::Told;
use crate::rule::{Ends, Informs, Published, Sees, View};
use crate::shown::Shown;
use html_types::{NoMemory, Text};
use std::alloc::Global;
use std::marker::Model;
use two_copies::reader::Reader;

/// What a watcher sees at a glance: as how many the changes count that were published, and whether
/// nothing more is.
#[derive(Clone, Copy)]
pub struct Glance {
    pub changes: u64,
    pub last: bool,
}

/// What a watcher sees: the same, and the text of the document.
#[derive(Drop)]
pub struct Seen {
    pub changes: u64,
    pub last: bool,
    pub text: Text,
}

/// A watcher of a board. It may be in a thread of its own.
#[derive(Drop)]
pub struct Watcher {
    pub(crate) reader: Reader<Shown, View, Published>,
}

impl Model for Watcher {
    ghost use Rattle.two_copies.specs.Sides.{view as view_at};
    ghost use Rattle.tree_watch.specs.Boards.{WatcherView};

    ghost Value = { WatcherView };

    ghost view = { λ w. record {
      table = w.reader.place.table_id;
      seen = (view_at w.reader.place).seen;
      told = (view_at w.reader.place).told;
    } };
}

ghost use Rattle.two_copies.specs.Sides.{view};
ghost use Rattle.tree_watch.specs.Boards.{IsNew};
ghost use Rattle.tree_watch.specs.Seeing.{IsGlance, IsSeen};

/// A new one.
pub(crate) fn watch(reader: Reader<Shown, View, Published>) -> Watcher
    requires { view reader.place ≡ newcomer }
    ensures { IsNew reader.place.table_id result }
{
    Watcher { reader }
}

fn glance_of(shown: &Shown) -> Glance
    ensures { IsGlance result shown.now }
{
    Glance {
        changes: shown.changes(),
        last: shown.is_last(),
    }
}

/// What is seen of a copy, with its text.
pub(crate) fn seen_of(alloc: Global, shown: &Shown) -> Result<Seen, NoMemory>
    ensures { IfOk result (λ seen. IsSeen seen shown.now) }
{
    let doc = shown.doc().ok_or(NoMemory)?;
    let text = serialiser::document(alloc, doc.tree())?;
    Ok(Seen {
        changes: shown.changes(),
        last: shown.is_last(),
        text,
    })
}

impl Watcher {
    ghost use Rattle.tree_watch.specs.Boards.{HasLooked, HasCompared};

    /// Learns what its board told.
    pub fn learn(&mut self, told: Told)
        requires { told.table ≡ self.old.table }
        ensures { self.new ≡ record self.old { told = told.published } }
    {
        let Told { note } = told;
        self.reader.learn::<Informs>(note);
    }

    /// Looks at what was published last: it is what was seen before or is later, and no earlier
    /// than what was told. None where the board was closed.
    pub fn glance(self) -> (Watcher, Option<Glance>)
        ensures seen { StartsWith result.0.seen self.seen }
        ensures others { result.0 ≡ record self { seen = result.0.seen } }
        ensures looked { IfSome result.1 (λ glance. HasLooked self result.0) }
        ensures is { IfSome result.1 (λ glance. IsGlance glance (latest result.0.seen)) }
    {
        let Watcher { reader } = self;
        match reader.enter_as::<Sees>() {
            Err(reader) => (Watcher { reader }, None),
            Ok(reading) => {
                let glance = glance_of(reading.get());
                let watcher = Watcher {
                    reader: reading.leave(),
                };
                (watcher, Some(glance))
            }
        }
    }

    /// The same, with the document's text. The board can't publish twice while it is written.
    pub fn text(self, alloc: Global) -> (Watcher, Result<Seen, NoMemory>)
        ensures seen { StartsWith result.0.seen self.seen }
        ensures others { result.0 ≡ record self { seen = result.0.seen } }
        ensures looked { IfOk result.1 (λ seen. HasLooked self result.0) }
        ensures is { IfOk result.1 (λ seen. IsSeen seen (latest result.0.seen)) }
    {
        let Watcher { reader } = self;
        match reader.enter_as::<Sees>() {
            Err(reader) => (Watcher { reader }, Err(NoMemory)),
            Ok(reading) => {
                let seen = seen_of(alloc, reading.get());
                let watcher = Watcher {
                    reader: reading.leave(),
                };
                (watcher, seen)
            }
        }
    }

    /// Compares what was seen with what was told. False where the board was closed.
    pub fn compare(self) -> (Watcher, bool)
        ensures same { result.0 ≡ self }
        ensures compared { IsTrue result.1 → HasCompared self }
    {
        let Watcher { reader } = self;
        match reader.enter_as::<Ends>() {
            Err(reader) => (Watcher { reader }, false),
            Ok(reading) => {
                let watcher = Watcher {
                    reader: reading.leave(),
                };
                (watcher, true)
            }
        }
    }
}

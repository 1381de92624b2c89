// Who watches the document while it grows.
ghost use Rattle.std.specs.Prelude.{◌≡◌, ◌≤◌, ℕ, List, Bool, [], fold, length, false, IsTrue, OnOk};
ghost use Rattle.std.specs.Prelude.{OnErr};
ghost use Rattle.standard.specs.Act.{Doc};
ghost use Rattle.doc_changes.specs.Changes.{changed};
ghost use Rattle.page_turns.specs.Watched.{Grown, ungrown, grown_by, shown_with, AreLast};
ghost use Rattle.page_turns.specs.Watched.{PassedStand};

use doc_changes::Change;
use html_types::NoMemory;
use std::alloc::Global;
use tree_watch::Seen;

/// Who is told what the document did, once a Do is over and its lines are written.
pub trait Watch {
    /// Whether it wants to be told.
    ghost watches: { Self → Bool };

    /// How many watch.
    ghost count: { Self → ℕ };

    /// The document to which the changes lead that it was told, and that it showed, and as how many
    /// they count.
    ghost doc: { Self → Grown };

    /// The documents that it showed, in turn.
    ghost shown: { Self → List Doc };

    /// Whether it wants to be told: where not, nobody logs the changes, and it is told of none.
    fn wants(&self) -> bool
        ensures { result ≡ watches self.now };

    /// The document did this since it was told last: where that is anything, it shows the document
    /// as it is now.
    fn did(&mut self, changes: Vec<Change>) -> Result<(), NoMemory>
        ensures watches { watches self.new ≡ watches self.old }
        ensures count { count self.new ≡ count self.old }
        ensures doc { IsTrue (watches self.old)
            → OnOk result (doc self.new ≡ grown_by (doc self.old) changes.items) }
        ensures shown { IsTrue (watches self.old) → OnOk result (shown self.new ≡ shown_with
            changes.items (shown self.old) (fold changed (doc self.old).doc changes.items)) }
        ensures err { OnErr result (doc self.new ≡ doc self.old) }
        ensures err_shown { OnErr result (shown self.new ≡ shown self.old) };

    /// The parse is over: shows the document once more, with the mark behind which nothing is
    /// shown, and waits for all who watch. What they saw last: that document's text, and as how
    /// many its changes count; false where one ended without the mark.
    fn end(&mut self, alloc: Global) -> (Vec<Seen>, bool)
        ensures seen { AreLast (doc self.old) result.0.items }
        ensures few { length result.0.items ≤ count self.old }
        ensures count { IsTrue result.1 → length result.0.items ≡ count self.old };
}

/// Nobody watches.
#[derive(Clone, Copy)]
pub struct Unwatched;

impl Watch for Unwatched {
    ghost watches = { λ _. false };

    ghost count = { λ _. 0 };

    ghost doc = { λ _. ungrown };

    ghost shown = { λ _. [] };

    fn wants(&self) -> bool {
        false
    }

    fn did(&mut self, _changes: Vec<Change>) -> Result<(), NoMemory> {
        Ok(())
    }

    fn end(&mut self, alloc: Global) -> (Vec<Seen>, bool) {
        (Vec::new(alloc), true)
    }
}

/// A law: a document that a run passed through, which those who watch are shown, is that of a
/// moment that the serial parse passes through. No operation that was thrown away is in it.
pub fn passed_stand()
    ensures { PassedStand }
{}

//! The board: the one who makes the document publishes it there.

ghost use Rattle.std.specs.Prelude.{◌≡◌, ◌<◌, ◌≤◌, ◌^◌, ◌++◌, ◌∷◌, [], length, true, false, All};
ghost use Rattle.std.specs.Prelude.{IfOk, OnOk, OnErr};
ghost use Rattle.tree_watch.specs.Boards.{Begins, IsNew, HasPublished, HasNotPublished};
ghost use Rattle.tree_watch.specs.Seeing.{IsSeen};

use crate::rule::{Retells, View};
use crate::shown::{Note, Shown};
use crate::steps::{Head, first_head, open, publish};
use crate::watcher::{Seen, Watcher, seen_of, watch};
use doc_changes::Change;
use html_types::NoMemory;
use std::alloc::{AllocError, Global};
use std::marker::Model;
use std::sync::Wait;
use two_copies::Place;

/// The document's changes are noted, and then published together. It is not `Drop`: end it by
/// `close`.
pub struct Board {
    head: Head,
    over: bool,
}

impl Model for Board {
    ghost use Rattle.std.specs.Prelude.{drop};
    ghost use Rattle.two_copies.specs.Sides.{view as view_at};
    ghost use Rattle.tree_watch.specs.Boards.{BoardView, IsOpen};

    ghost Value = { BoardView };

    ghost view = { λ b. record {
      table = b.head.desk.place.table_id;
      stand = b.head.desk.shown.value;
      published = (view_at b.head.desk.place).seen;
      pending = drop b.head.behind b.head.log.items;
      over = b.over;
    } };

    ghost invariant = { λ b. IsOpen (view_at b.head.desk.place).leads b.head.desk.shown.value
        (view_at b.head.desk.place).seen (drop b.head.behind b.head.log.items) b.over };
}

/// What a board told. It has no bytes, and isn't `Drop`: a watcher learns it.
pub struct Told {
    pub(crate) note: Place<Shown, View>,
}

impl Model for Told {
    ghost use Rattle.std.specs.Prelude.{◌≡◌, []};
    ghost use Rattle.two_copies.specs.Sides.{view as view_at};
    ghost use Rattle.tree_watch.specs.Boards.{ToldView};

    ghost Value = { ToldView };

    ghost view = { λ t. record { table = t.note.table_id; published = (view_at t.note).seen } };

    ghost invariant = { λ t. t.note.me.1 ≡ [] };
}

fn watcher_of(head: &Head) -> Result<Watcher, AllocError>
    ensures { IfOk result (IsNew head.now.desk.place.table_id) }
{
    let reader = head.factory().reader()?;
    Ok(watch(reader))
}

// For so many watchers, or for fewer where one finds no place or no memory.
fn watchers_of(alloc: Global, head: &Head, most: usize) -> Vec<Watcher>
    ensures new { All (IsNew head.now.desk.place.table_id) result.items }
    ensures few { length result.items ≤ most }
{
    let mut watchers = Vec::new(alloc);
    'places: for _ in 0..most {
        let Ok(watcher) = watcher_of(head) else {
            break;
        };
        if watchers.push(watcher).is_err() {
            break;
        }
    }
    watchers
}

impl Board {
    /// A board over the empty document, which is open, and so many watchers of it, or fewer where
    /// one finds no place.
    pub fn new<R: Wait>(
        alloc: Global,
        rt: &R,
        watchers: usize,
    ) -> Result<(Board, Vec<Watcher>), NoMemory>
        requires { (0 < watchers) × (watchers < 2 ^ 32) }
        ensures begins { IfOk result (λ made. Begins made.0) }
        ensures watchers { IfOk result (λ made. All (IsNew made.0.table) made.1.items) }
        ensures few { IfOk result (λ made. length made.1.items ≤ watchers) }
    {
        let mut head = first_head(alloc, watchers)?;
        if head.append(Note::Opened).is_err() {
            head.take(rt);
            return Err(NoMemory);
        }
        let (head, opened) = open(rt, head);
        match opened {
            Err(_) => {
                head.take(rt);
                Err(NoMemory)
            }
            Ok(()) => {
                let watchers = watchers_of(alloc, &head, watchers);
                Ok((Board { head, over: false }, watchers))
            }
        }
    }

    /// One change more, which isn't published yet.
    pub fn note(&mut self, change: Change) -> Result<(), NoMemory>
        ensures ok { OnOk result (self.new ≡ record self.old {
          pending = self.old.pending ++ Note.Did change ∷ [];
        }) }
        ensures err { OnErr result (self.new ≡ self.old) }
        ensures over { self.new.over ≡ self.old.over }
        ensures table { self.new.table ≡ self.old.table }
    {
        match self.head.append(Note::Did(change)) {
            Ok(()) => Ok(()),
            Err(_) => Err(NoMemory),
        }
    }

    // Publishes what was noted.
    fn publish_changes<R: Wait>(self, rt: &R) -> (Board, Result<(), NoMemory>)
        requires { self.over ≡ false }
        ensures over { result.0.over ≡ false }
        ensures table { result.0.table ≡ self.table }
        ensures ok { OnOk result.1 (HasPublished false self result.0) }
        ensures err { OnErr result.1 (HasNotPublished false self result.0) }
    {
        let Board { head, over: _ } = self;
        let (head, published) = publish(rt, head);
        match published {
            Ok(()) => (Board { head, over: false }, Ok(())),
            Err(_) => (Board { head, over: false }, Err(NoMemory)),
        }
    }

    // Publishes what was noted, with the mark.
    fn publish_mark<R: Wait>(self, rt: &R) -> (Board, Result<(), NoMemory>)
        requires { self.over ≡ false }
        ensures over { result.0.over ≡ true }
        ensures table { result.0.table ≡ self.table }
        ensures ok { OnOk result.1 (HasPublished true self result.0) }
        ensures err { OnErr result.1 (HasNotPublished true self result.0) }
    {
        let Board { mut head, over: _ } = self;
        if head.append(Note::Last).is_err() {
            return (Board { head, over: true }, Err(NoMemory));
        }
        let (head, published) = publish(rt, head);
        match published {
            Ok(()) => (Board { head, over: true }, Ok(())),
            Err(_) => (Board { head, over: true }, Err(NoMemory)),
        }
    }

    /// Publishes what was noted; with the mark, nothing more is published. It waits for watchers
    /// that still read what was published before. Where it finds no memory, nothing changes that
    /// watchers see.
    pub fn publish<R: Wait>(self, rt: &R, last: bool) -> (Board, Result<(), NoMemory>)
        requires { self.over ≡ false }
        ensures over { result.0.over ≡ last }
        ensures table { result.0.table ≡ self.table }
        ensures ok { OnOk result.1 (HasPublished last self result.0) }
        ensures err { OnErr result.1 (HasNotPublished last self result.0) }
    {
        if last {
            return self.publish_mark(rt);
        }
        self.publish_changes(rt)
    }

    /// Tells what was published, for a watcher to learn.
    pub fn tell(&mut self) -> Told
        ensures told { result ≡ record { table = self.old.table; published = self.old.published } }
        ensures kept { self.new ≡ self.old }
    {
        Told {
            note: self.head.tell::<Retells>(),
        }
    }

    /// What a watcher sees of what was published last: for one that found no place.
    pub fn look(&self, alloc: Global) -> Result<Seen, NoMemory>
        ensures { IfOk result (λ seen. IsSeen seen self.now.stand) }
    {
        seen_of(alloc, self.head.published())
    }

    /// Waits for watchers that are still reading, and ends the board.
    pub fn close<R: Wait>(self, rt: &R) {
        let Board { head, over: _ } = self;
        head.take(rt);
    }
}

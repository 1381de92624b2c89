// The board on which the document is shown while it grows, and those who watch it.
ghost use Rattle.std.specs.Prelude.{◌≡◌, ◌<◌, ◌≤◌, ◌^◌, ◌++◌, [], map, All, length, true, false};
ghost use Rattle.std.specs.Prelude.{IfOk, IfSome, IsTrue, OnOk, OnErr};
ghost use Rattle.tree_watch.specs.declared.shown.Note.TheVariants as note;
ghost use Rattle.tree_watch.specs.declared.shown.Stand.{Stand};
ghost use Rattle.tree_watch.specs.Rule.{latest};
ghost use Rattle.tree_watch.specs.Boards.{Begins, HasPublished};
ghost use Rattle.tree_watch.specs.Seeing.{IsSeen};
ghost use Rattle.page_turns.specs.Watched.{ungrown, AreLast};
ghost use Rattle.page_runner.specs.Watching.{HasShown, HasKept, IsShownFrom, IsLeftFrom, IsShowing};
ghost use Rattle.page_runner.specs.Watching.{IsWatching, AreAtPosts, doc_on, doc_of, shown_of};

use crate::eye::Eye;
use crate::watchers::{Post, join_all, leave, post_all};
use doc_changes::Change;
use html_types::NoMemory;
use page_turns::Watch;
use std::alloc::Global;
use std::marker::Model;
use std::mem;
use std::sync::{Arc, Wait};
use std::thread::Threads;
use tree_watch::{Board, Seen};

/// The board of a run and its watchers. A contract sees what was published on it. It isn't let go:
/// `close` ends it.
pub(crate) struct Watching<'a, R> {
    rt: &'a R,
    // None behind the end of the run, or where memory ran out in making it.
    board: Option<Board>,
    // Memory ran out in noting or publishing: nothing more is published.
    failed: bool,
    posts: Vec<Post>,
    count: usize,
}

impl<'a, R> Model for Watching<'a, R> {
    ghost use Rattle.page_runner.specs.Watching.{Watched, IsWatching};

    ghost Value = { Watched };

    ghost view = { λ w. record { board = w.board; count = w.count } };

    ghost invariant = { λ w. IsWatching w.board w.failed w.posts.items };
}

// Notes the changes, in order.
fn note_all(board: &mut Board, changes: Vec<Change>) -> Result<(), NoMemory>
    ensures ok { OnOk result (board.new ≡ record board.old {
      pending = board.old.pending ++ map note.Did changes.items;
    }) }
    ensures going { board.new.over ≡ board.old.over }
    ensures table { board.new.table ≡ board.old.table }
    ensures stand { board.new.stand ≡ board.old.stand }
    ensures published { board.new.published ≡ board.old.published }
{
    for change in changes {
        board.note(change)?;
    }
    Ok(())
}

// Notes the changes and publishes them. Where memory runs out all is as it was that is published.
fn show<R: Wait>(rt: &R, board: Board, changes: Vec<Change>) -> (Board, Result<(), NoMemory>)
    requires { board.over ≡ false }
    ensures ok { OnOk result.1 (HasShown board changes.items result.0) }
    ensures err { OnErr result.1 (HasKept board result.0) }
{
    let mut board = board;
    if note_all(&mut board, changes).is_err() {
        return (board, Err(NoMemory));
    }
    board.publish(rt, false)
}

// The same where nothing has failed yet. True where it fails.
fn show_on<R: Wait>(rt: &R, board: Board, failed: bool, changes: Vec<Change>) -> (Board, bool)
    requires { board.over ≡ false }
    ensures shown { result.1 ≡ false → (failed ≡ false) × HasShown board changes.items result.0 }
    ensures left { result.1 ≡ true → HasKept board result.0 }
{
    if failed {
        return (board, true);
    }
    let (board, shown) = show(rt, board, changes);
    if shown.is_err() {
        return (board, true);
    }
    (board, false)
}

// The same where the board is there.
fn show_all<R: Wait>(
    rt: &R,
    board: Option<Board>,
    failed: bool,
    changes: Vec<Change>,
) -> (Option<Board>, bool)
    requires { IfSome board (λ b. b.over ≡ false) }
    ensures shown { result.1 ≡ false → IsShownFrom board failed changes.items result.0 }
    ensures left { result.1 ≡ true → IsLeftFrom board result.0 }
{
    match board {
        None => (None, true),
        Some(board) => {
            let (board, failed) = show_on(rt, board, failed, changes);
            (Some(board), failed)
        }
    }
}

fn told(failed: bool) -> Result<(), NoMemory>
    ensures ok { OnOk result (failed ≡ false) }
    ensures err { OnErr result (failed ≡ true) }
{
    if failed {
        return Err(NoMemory);
    }
    Ok(())
}

// What one that found no place sees.
fn look_now(alloc: Global, board: &Board) -> Option<Seen>
    ensures { IfSome result (λ s. IsSeen s board.now.stand) }
{
    match board.look(alloc) {
        Ok(seen) => Some(seen),
        Err(NoMemory) => None,
    }
}

// Adds what a watcher saw last. False where one ended without the mark, or memory runs out.
fn add_last(seen: &mut Vec<Seen>, last: Option<Seen>, all: bool) -> bool
    ensures { (x : Stand) → IfSome last (λ s. IsSeen s x)
        → All (λ s. IsSeen s x) seen.old.items → All (λ s. IsSeen s x) seen.new.items }
{
    match last {
        None => false,
        Some(last) => {
            let added = seen.push(last);
            added.is_ok() && all
        }
    }
}

// Waits for each watcher: what they saw last, and what is seen here for those that are missing.
// Nothing where that isn't as many as watched. False where one ended without the mark.
fn call_in<R: Threads + Wait>(
    rt: &R,
    alloc: Global,
    board: &mut Board,
    posts: Vec<Post>,
    count: usize,
) -> (Vec<Seen>, bool)
    requires posts { AreAtPosts board.old.table posts.items }
    requires stands { board.old.stand ≡ latest board.old.published }
    requires marked { board.old.stand.last ≡ true }
    ensures seen { All (λ s. IsSeen s board.old.stand) result.0.items }
    ensures count { IsTrue result.1 → length result.0.items ≡ count }
    ensures few { length result.0.items ≤ count }
{
    let mut seen = Vec::new(alloc);
    let mut all = true;
    for post in posts {
        let last = leave(rt, alloc, board, post);
        all = add_last(&mut seen, last, all);
    }
    'places: for _ in seen.len()..count {
        let last = look_now(alloc, board);
        all = add_last(&mut seen, last, all);
    }
    let whole = seen.len() == count;
    if !whole {
        return (none_seen(alloc), false);
    }
    (seen, all)
}

/// Nothing that anyone saw.
pub(crate) fn none_seen(alloc: Global) -> Vec<Seen>
    ensures { result.items ≡ [] }
{
    Vec::new(alloc)
}

// Shows the document once more, with the mark, unless memory ran out before. False where nothing is
// shown.
fn mark<R: Wait>(rt: &R, board: Board, failed: bool) -> (Board, bool)
    requires { board.over ≡ false }
    ensures table { result.0.table ≡ board.table }
    ensures marked { IsTrue result.1 → (failed ≡ false) × HasPublished true board result.0 }
    ensures kept { result.1 ≡ false → result.0.published ≡ board.published }
{
    if failed {
        return (board, false);
    }
    let (board, marked) = board.publish(rt, true);
    if marked.is_err() {
        return (board, false);
    }
    (board, true)
}

// The same, and waits for each watcher.
fn end_on<R: Threads + Wait>(
    rt: &R,
    alloc: Global,
    board: Board,
    failed: bool,
    posts: Vec<Post>,
    count: usize,
) -> (Vec<Seen>, bool)
    requires showing { IsShowing board }
    requires noted { failed ≡ false → board.pending ≡ [] }
    requires posts { AreAtPosts board.table posts.items }
    ensures seen { AreLast (doc_on board) result.0.items }
    ensures count { IsTrue result.1 → length result.0.items ≡ count }
    ensures few { length result.0.items ≤ count }
{
    let (board, marked) = mark(rt, board, failed);
    if !marked {
        board.close(rt);
        join_all(rt, posts);
        return (none_seen(alloc), false);
    }
    let mut board = board;
    let called = call_in(rt, alloc, &mut board, posts, count);
    board.close(rt);
    called
}

// A board, and its watchers at their posts, with room for all.
fn post_watchers<
    R: Threads + Wait + Copy + Send + Sync + 'static,
    Y: Eye + Drop + Send + Sync + 'static,
>(rt: &R, alloc: Global, count: usize, eye: &Arc<Y, Global>) -> Result<(Board, Vec<Post>), NoMemory>
    requires { (0 < count) × (count < 2 ^ 32) }
    ensures begins { IfOk result (λ made. Begins made.0) }
    ensures posts { IfOk result (λ made. AreAtPosts made.0.table made.1.items) }
{
    let (board, watchers) = Board::new(alloc, rt, count)?;
    let mut posts = Vec::new(alloc);
    let Ok(()) = posts.reserve(watchers.len()) else {
        board.close(rt);
        return Err(NoMemory);
    };
    post_all(rt, alloc, watchers, &mut posts, eye);
    Ok((board, posts))
}

// The same, or no board where memory runs out.
fn try_to_post<
    R: Threads + Wait + Copy + Send + Sync + 'static,
    Y: Eye + Drop + Send + Sync + 'static,
>(rt: &R, alloc: Global, count: usize, eye: &Arc<Y, Global>) -> (Option<Board>, Vec<Post>)
    requires { (0 < count) × (count < 2 ^ 32) }
    ensures watching { IsWatching result.0 false result.1.items }
    ensures doc { doc_of result.0 ≡ ungrown }
    ensures shown { shown_of result.0 ≡ [] }
{
    match post_watchers(rt, alloc, count, eye) {
        Ok((board, posts)) => (Some(board), posts),
        Err(NoMemory) => (None, Vec::new(alloc)),
    }
}

impl<'a, R: Threads + Wait + Copy + Send + Sync + 'static> Watching<'a, R> {
    /// A board, and so many who watch it from here on, each where it can in a thread of its own:
    /// fewer have a place there where one finds none. Where memory runs out nothing is shown.
    pub(crate) fn begin<Y: Eye + Drop + Send + Sync + 'static>(
        rt: &'a R,
        alloc: Global,
        count: usize,
        eye: &Arc<Y, Global>,
    ) -> Watching<'a, R>
        requires { (0 < count) × (count < 2 ^ 32) }
        ensures count { result.count ≡ count }
        ensures doc { doc_of result.board ≡ ungrown }
        ensures shown { shown_of result.board ≡ [] }
    {
        let (board, posts) = try_to_post(rt, alloc, count, eye);
        Watching {
            rt,
            board,
            failed: false,
            posts,
            count,
        }
    }
}

impl<'a, R: Threads + Wait> Watching<'a, R> {
    /// Ends it, behind the run: `end` came before.
    pub(crate) fn close(self) {
        let Watching {
            rt,
            board,
            failed: _failed,
            posts,
            count: _count,
        } = self;
        if let Some(board) = board {
            board.close(rt);
        }
        join_all(rt, posts);
    }
}

impl<'a, R: Threads + Wait> Watch for Watching<'a, R> {
    ghost watches = { λ _. true };

    ghost count = { λ w. w.count };

    ghost doc = { λ w. doc_of w.board };

    ghost shown = { λ w. shown_of w.board };

    fn wants(&self) -> bool {
        true
    }

    fn did(&mut self, changes: Vec<Change>) -> Result<(), NoMemory> {
        if changes.is_empty() {
            return Ok(());
        }
        let board = mem::replace(&mut self.board, None);
        let (board, failed) = show_all(self.rt, board, self.failed, changes);
        self.failed = failed;
        if let Some(other) = mem::replace(&mut self.board, board) {
            other.close(self.rt);
        }
        told(failed)
    }

    fn end(&mut self, alloc: Global) -> (Vec<Seen>, bool) {
        let posts = mem::replace(&mut self.posts, Vec::new(alloc));
        let Some(board) = mem::replace(&mut self.board, None) else {
            join_all(self.rt, posts);
            return (none_seen(alloc), false);
        };
        end_on(self.rt, alloc, board, self.failed, posts, self.count)
    }
}

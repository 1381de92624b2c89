// Watchers in threads of their own.
ghost use Rattle.std.specs.Prelude.{◌≡◌, ◌≤◌, ◌+◌, IfSome, true};
ghost use Rattle.std.specs.Vec.{vec_len, vec_capacity};
ghost use Rattle.atomic_table.specs.Seated.{TableId};
ghost use Rattle.tree_watch.specs.Rule.{latest};
ghost use Rattle.tree_watch.specs.Seeing.{IsSeen};
ghost use Rattle.page_runner.specs.Partings.{Parted, table_in, AreOfBoard};
ghost use Rattle.page_runner.specs.Watching.{table_at, AreAtPosts};

use crate::eye::Eye;
use crossbeam_utils::Backoff;
use std::alloc::{AllocError, Global};
use std::snapshot::Snapshot;
use std::sync::atomic::{AtomicU64, Ordering};
use std::sync::{Arc, Wait};
use std::thread;
use std::thread::{Promise, PromisedHandle, Threads};
use tree_watch::{Board, Seen, Watcher};

/// What the closure for a watcher's thread gives back.
#[derive(Drop)]
pub(crate) enum Parting {
    /// It has watched, and what it saw last, where it saw the mark.
    Done(Watcher, Option<Seen>),
    /// It was called in the thread that made it, and hands the watcher back.
    Unused(Watcher),
}

/// The parting is of the watcher that the closure was given.
#[derive(Drop)]
pub(crate) struct OfWatcher {
    watcher: Snapshot<Watcher>,
}

impl Promise<Parting> for OfWatcher {
    ghost use Rattle.page_runner.specs.Partings.{Parted};

    ghost kept_by = { λ p r. Parted p.watcher.value.table r };
}

/// Where a watcher is.
#[derive(Drop)]
pub(crate) enum Post {
    /// In a thread of its own.
    There(PromisedHandle<Parting, OfWatcher>),
    /// No thread could be made: the thread that publishes looks for it once, at the end.
    Here(Watcher),
}

// What a watcher's thread owns beside the watcher.
#[derive(Drop)]
struct Gear<Y> {
    eye: Arc<Y, Global>,
    // 1 where no thread could be made.
    refused: Arc<AtomicU64, Global>,
}

// Watches until it sees the mark, or until the board is closed without it.
fn watch_on<R: Wait, Y: Eye>(
    rt: &R,
    alloc: Global,
    number: u64,
    watcher: Watcher,
    eye: &Y,
) -> (Watcher, Option<Seen>)
    ensures table { result.0.table ≡ watcher.table }
    ensures seen { IfSome result.1 (λ seen. IsSeen seen (latest result.0.seen)) }
{
    let mut watcher = watcher;
    let backoff = Backoff::new();
    for _ in rt.forever() {
        let (looked, glance) = watcher.glance();
        watcher = looked;
        let Some(glance) = glance else {
            return (watcher, None);
        };
        eye.saw(number, glance.changes);
        if glance.last {
            let (watcher, seen) = watcher.text(alloc);
            let Ok(seen) = seen else {
                return (watcher, None);
            };
            return (watcher, Some(seen));
        }
        backoff.snooze();
    }
    unreachable!()
}

// What runs in the thread; or in the calling one, where no thread could be made.
fn stand<R: Wait + Copy, Y: Eye + Drop>(
    rt: R,
    alloc: Global,
    number: u64,
    watcher: Watcher,
    eye: Arc<Y, Global>,
    refused: Arc<AtomicU64, Global>,
) -> Parting
    ensures { Parted watcher.table result }
{
    if refused.load(Ordering::SeqCst) == 1 {
        return Parting::Unused(watcher);
    }
    let (watcher, seen) = watch_on(&rt, alloc, number, watcher, &*eye);
    Parting::Done(watcher, seen)
}

fn gear_of<Y: Eye + Drop>(
    alloc: Global,
    eye: &Arc<Y, Global>,
) -> Result<(Gear<Y>, Arc<AtomicU64, Global>), AllocError> {
    let refused = Arc::new(alloc, AtomicU64::new(0))?;
    let told = Arc::try_clone(&refused)?;
    let gear = Gear {
        eye: Arc::try_clone(eye)?,
        refused: told,
    };
    Ok((gear, refused))
}

// The post of a closure that was called here.
fn post_here(parting: Parting) -> Post
    ensures { table_at result ≡ table_in parting }
{
    match parting {
        Parting::Done(watcher, _) => Post::Here(watcher),
        Parting::Unused(watcher) => Post::Here(watcher),
    }
}

/// Puts a watcher into a thread. Where none can be made it stays in this one.
pub(crate) fn post_one<
    R: Threads + Wait + Copy + Send + Sync + 'static,
    Y: Eye + Drop + Send + Sync + 'static,
>(rt: &R, alloc: Global, number: u64, watcher: Watcher, eye: &Arc<Y, Global>) -> Post
    ensures { table_at result ≡ watcher.table }
{
    let Ok((gear, refused)) = gear_of(alloc, eye) else {
        return Post::Here(watcher);
    };
    let promise = OfWatcher {
        watcher: Snapshot::of(&watcher),
    };
    let their_rt = *rt;
    let Gear {
        eye: their_eye,
        refused: told,
    } = gear;
    match thread::spawn_with(
        rt,
        promise,
        move || -> Parting
            ensures { Parted watcher.table result }
        { stand(their_rt, alloc, number, watcher, their_eye, told) },
    ) {
        Ok(child) => Post::There(child),
        Err(refusal) => {
            refused.store(1, Ordering::SeqCst);
            post_here((refusal.value)())
        }
    }
}

/// Puts each watcher at its post, in order.
pub(crate) fn post_all<
    R: Threads + Wait + Copy + Send + Sync + 'static,
    Y: Eye + Drop + Send + Sync + 'static,
>(rt: &R, alloc: Global, watchers: Vec<Watcher>, posts: &mut Vec<Post>, eye: &Arc<Y, Global>)
    requires none { (table : TableId) → AreAtPosts table posts.old.items }
    requires room { vec_len posts.old + vec_len watchers ≤ vec_capacity posts.old }
    ensures { (table : TableId) → AreOfBoard table watchers.items
        → AreAtPosts table posts.new.items }
{
    let mut number = 0u64;
    for watcher in watchers {
        number = number.saturating_add(1);
        let at = post_one(rt, alloc, number, watcher, eye);
        posts.push_reserved(at);
    }
}

// What the watcher saw last, where it saw the mark: that is what was published last.
fn compared(board: &mut Board, watcher: Watcher, seen: Seen) -> Option<Seen>
    requires table { watcher.table ≡ board.old.table }
    requires seen { IsSeen seen (latest watcher.seen) }
    ensures board { board.new ≡ board.old }
    ensures seen { (latest board.old.published).last ≡ true
        → IfSome result (λ s. IsSeen s (latest board.old.published)) }
{
    if !seen.last {
        return None;
    }
    let mut watcher = watcher;
    let told = board.tell();
    watcher.learn(told);
    let (_watcher, compares) = watcher.compare();
    if !compares {
        return None;
    }
    Some(seen)
}

// The same of one that looks here.
fn look_here(alloc: Global, board: &mut Board, watcher: Watcher) -> Option<Seen>
    requires { watcher.table ≡ board.old.table }
    ensures board { board.new ≡ board.old }
    ensures seen { (latest board.old.published).last ≡ true
        → IfSome result (λ s. IsSeen s (latest board.old.published)) }
{
    let (watcher, seen) = watcher.text(alloc);
    match seen {
        Ok(seen) => compared(board, watcher, seen),
        Err(_) => None,
    }
}

// The same of one that has ended.
fn part_from(alloc: Global, board: &mut Board, parting: Parting) -> Option<Seen>
    requires { Parted board.old.table parting }
    ensures board { board.new ≡ board.old }
    ensures seen { (latest board.old.published).last ≡ true
        → IfSome result (λ s. IsSeen s (latest board.old.published)) }
{
    match parting {
        Parting::Done(watcher, seen) => match seen {
            Some(last) => compared(board, watcher, last),
            None => None,
        },
        Parting::Unused(watcher) => look_here(alloc, board, watcher),
    }
}

/// What a watcher saw last, once the mark is published: none where it ended without it.
pub(crate) fn leave<R: Threads + Wait>(
    rt: &R,
    alloc: Global,
    board: &mut Board,
    post: Post,
) -> Option<Seen>
    requires { table_at post ≡ board.old.table }
    ensures board { board.new ≡ board.old }
    ensures seen { (latest board.old.published).last ≡ true
        → IfSome result (λ s. IsSeen s (latest board.old.published)) }
{
    match post {
        Post::Here(watcher) => look_here(alloc, board, watcher),
        Post::There(child) => {
            let parting = child.join(rt);
            part_from(alloc, board, parting)
        }
    }
}

/// Waits for each watcher.
pub(crate) fn join_all<R: Threads + Wait>(rt: &R, posts: Vec<Post>) {
    for post in posts {
        if let Post::There(child) = post {
            child.join(rt);
        }
    }
}

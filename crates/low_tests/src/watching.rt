//! A document is watched while it grows.

ghost use Rattle.std.specs.Prelude.{◌≡◌};

use doc_changes::Change;
use html_types::{Attributes, Name, NoMemory, NodeId, Place};
use std::alloc::Global;
use text_store::Ops;
use tree_watch::{Board, Seen, Watcher};

const PARAGRAPH: NodeId = NodeId { realm: 1, n: 0 };

fn paragraph(alloc: Global) -> Result<Change, NoMemory> {
    let mut ops = Ops::new(alloc);
    let name = Name::of(alloc, "p")?;
    let attributes = Attributes::new(alloc);
    ops.push_make(PARAGRAPH, &name, &attributes)?;
    ops.push_put(PARAGRAPH, Place::Page)?;
    Ok(Change::Did(ops))
}

fn put(alloc: Global) -> Result<Change, NoMemory> {
    let mut ops = Ops::new(alloc);
    ops.push_put(PARAGRAPH, Place::Page)?;
    Ok(Change::Did(ops))
}

fn text(alloc: Global, text: &str) -> Result<Change, NoMemory> {
    let mut ops = Ops::new(alloc);
    ops.push_text(Place::Inside(PARAGRAPH), text)?;
    Ok(Change::Did(ops))
}

fn note(board: &mut Board, change: Result<Change, NoMemory>) -> Result<(), NoMemory>
    ensures { board.new.over ≡ board.old.over }
{
    board.note(change?)
}

fn look(alloc: Global, watcher: Option<Watcher>) -> (Option<Watcher>, Option<Seen>) {
    match watcher {
        None => (None, None),
        Some(watcher) => {
            let (watcher, seen) = watcher.text(alloc);
            (Some(watcher), seen.ok())
        }
    }
}

fn is(seen: &Option<Seen>, changes: u64, last: bool, text: &str) -> bool {
    match seen {
        None => false,
        Some(seen) => seen.changes == changes && seen.last == last && seen.text.is(text),
    }
}

#[test]
fn what_is_published_is_seen(rt: HostRuntime) -> Result<(), NoMemory> {
    let alloc = rt.alloc();
    let (mut board, mut watchers) = Board::new(alloc, &rt, 2)?;
    let all = watchers.len() == 2;
    let noted = note(&mut board, paragraph(alloc));
    let (watcher, none) = look(alloc, watchers.pop());
    let (mut board, published) = board.publish(&rt, false);
    let (watcher, first) = look(alloc, watcher);
    let more = note(&mut board, text(alloc, "xy"));
    let (watcher, same) = look(alloc, watcher);
    let (board, ended) = board.publish(&rt, true);
    let (_watcher, last) = look(alloc, watcher);
    let (_watcher, other) = look(alloc, watchers.pop());
    board.close(&rt);
    assert!(rt; all && noted.is_ok() && published.is_ok() && more.is_ok() && ended.is_ok());
    assert!(rt; is(&none, 0, false, ""));
    assert!(rt; is(&first, 2, false, "<p></p>"));
    assert!(rt; is(&same, 2, false, "<p></p>"));
    assert!(rt; is(&last, 4, true, "<p>xy</p>"));
    assert!(rt; is(&other, 4, true, "<p>xy</p>"));
    Ok(())
}

#[test]
fn a_change_that_cannot_be_done_is_not_published(rt: HostRuntime) -> Result<(), NoMemory> {
    let alloc = rt.alloc();
    let (mut board, mut watchers) = Board::new(alloc, &rt, 1)?;
    let noted = note(&mut board, put(alloc));
    let (board, published) = board.publish(&rt, false);
    let (_watcher, seen) = look(alloc, watchers.pop());
    board.close(&rt);
    assert!(rt; noted.is_ok());
    assert!(rt; published.is_err());
    assert!(rt; is(&seen, 0, false, ""));
    Ok(())
}

#[test]
fn what_scripts_change_is_seen(rt: HostRuntime) -> Result<(), NoMemory> {
    let alloc = rt.alloc();
    let (mut board, mut watchers) = Board::new(alloc, &rt, 1)?;
    let noted = note(&mut board, paragraph(alloc));
    let removed = board.note(Change::Removed(1));
    let (board, published) = board.publish(&rt, true);
    let (_watcher, seen) = look(alloc, watchers.pop());
    board.close(&rt);
    assert!(rt; noted.is_ok() && removed.is_ok() && published.is_ok());
    assert!(rt; is(&seen, 3, true, ""));
    Ok(())
}

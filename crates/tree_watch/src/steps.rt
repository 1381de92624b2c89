//! The steps of the one who publishes.

ghost use Rattle.std.specs.Prelude.{◌≡◌, ◌<◌, ◌^◌, ◌++◌, ◌∷◌, [], fold, drop, true, false, IfOk};
ghost use Rattle.std.specs.Prelude.{OnOk, OnErr};
ghost use Rattle.two_copies.specs.Sides.{view};
ghost use Rattle.tree_watch.specs.Notes.{noted, start};
ghost use Rattle.tree_watch.specs.Rule.{latest};

use crate::rule::{Opens, Published, Publishes, View};
use crate::shown::{Note, Shown};
use html_types::NoMemory;
use std::alloc::{AllocError, Global};
use std::sync::Wait;
use two_copies::writer::Writer;

/// What publishes.
pub(crate) type Head = Writer<Shown, Note, View, Published>;

/// Two copies of the empty document, which nobody has published.
pub(crate) fn first_head(alloc: Global, watchers: usize) -> Result<Head, NoMemory>
    requires { (0 < watchers) × (watchers < 2 ^ 32) }
    ensures shown { IfOk result (λ head. head.desk.shown.value ≡ start) }
    ensures pending { IfOk result (λ head. drop head.behind head.log.items ≡ []) }
{
    let first = Shown::new(alloc)?;
    let second = Shown::new(alloc)?;
    Ok(Writer::new(alloc, first, second, watchers)?)
}

/// Publishes the note that opens the board.
pub(crate) fn open<R: Wait>(rt: &R, head: Head) -> (Head, Result<(), AllocError>)
    requires shown { head.desk.shown.value ≡ start }
    requires pending { drop head.behind head.log.items ≡ Note.Opened ∷ [] }
    ensures leads { OnOk result.1 ((view result.0.desk.place).leads ≡ true) }
    ensures seen { OnOk result.1
        ((view result.0.desk.place).seen ≡ result.0.desk.shown.value ∷ []) }
    ensures shown { OnOk result.1 (result.0.desk.shown.value ≡ record start { opened = true }) }
    ensures pending { OnOk result.1 (drop result.0.behind result.0.log.items ≡ []) }
{
    head.publish_as::<Opens, R>(rt)
}

/// Publishes what is pending.
pub(crate) fn publish<R: Wait>(rt: &R, head: Head) -> (Head, Result<(), AllocError>)
    requires leads { (view head.desk.place).leads ≡ true }
    requires opened { head.desk.shown.value.opened ≡ true }
    requires unmarked { head.desk.shown.value.last ≡ false }
    requires stands { head.desk.shown.value ≡ latest (view head.desk.place).seen }
    ensures stands { result.0.desk.shown.value ≡ latest (view result.0.desk.place).seen }
    ensures opened { result.0.desk.shown.value.opened ≡ true }
    ensures leads { (view result.0.desk.place).leads ≡ true }
    ensures seen { OnOk result.1 ((view result.0.desk.place).seen
        ≡ (view head.desk.place).seen ++ result.0.desk.shown.value ∷ []) }
    ensures shown { OnOk result.1 (result.0.desk.shown.value
        ≡ fold noted head.desk.shown.value (drop head.behind head.log.items)) }
    ensures pending { OnOk result.1 (drop result.0.behind result.0.log.items ≡ []) }
    ensures failed { OnErr result.1 ((result.0.desk.shown.value ≡ head.desk.shown.value)
        × (view result.0.desk.place ≡ view head.desk.place)) }
    ensures still_pending { OnErr result.1
        (drop result.0.behind result.0.log.items ≡ drop head.behind head.log.items) }
    ensures table { result.0.desk.place.table_id ≡ head.desk.place.table_id }
{
    head.publish_as::<Publishes, R>(rt)
}

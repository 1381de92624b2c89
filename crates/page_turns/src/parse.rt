// A page is parsed from where it is begun.
ghost use Rattle.std.specs.Prelude.{◌≡◌, ◌<◌, ◌≤◌, [], false, true, length, IfOk, IfSome, OnOk};
ghost use Rattle.std.specs.Prelude.{OnErr, IsErrOf, IsTrue};
ghost use Rattle.std.specs.String.{string_bytes};
ghost use Rattle.outside.specs.Outside.{Rose};
ghost use Rattle.core_steps.specs.Sides.{first_shown};
ghost use Rattle.page_turns.specs.Pages.{EndsWithScripts, FrontWithScripts};
ghost use Rattle.page_turns.specs.Cuts.{IsCut};
ghost use Rattle.page_turns.specs.Scripts.{folder_with};
ghost use Rattle.page_turns.specs.Turns.{no_load, LeavesAlone, Leaves, RunsOut};
ghost use Rattle.page_turns.specs.Along.{Goes};
ghost use Rattle.page_turns.specs.Messages.{TakenSoFar, MayTakeMore, TellsOn};
ghost use Rattle.page_turns.specs.Replaying.{ReplaysTo};
ghost use Rattle.page_turns.specs.Watched.{ungrown, Passed, AllPassed, HasTold, Follows};
ghost use Rattle.page_turns.specs.WrittenInPart.{IsDue, WritesInPart};

use crate::counterpart::Counterpart;
use crate::job::Job;
use crate::page::{Failure, take_turns};
use crate::prefetch::Prefetch;
use crate::reader::PageReader;
use crate::watch::Watch;
use core_steps::{DocSide, End};
use outside::{Outside, Sink};
use speculation::InForce;
use std::alloc::Global;

/// Parses the page that was begun, with this counterpart, and writes its lines. Where memory runs
/// out or the sink fails it has taken a front of what is written of the page: all lines of the
/// events before the refused one, and a front of what that one was to write. The document's side
/// and the counterpart were just made. Of the scripts some may have been fetched before they are
/// awaited.
pub fn parse_page<E: InForce, L: Counterpart<E>, P: Prefetch<E>, F: Outside, K: Sink, W: Watch>(
    alloc: Global,
    job: &Job<'_>,
    files: &mut F,
    out: &mut K,
    doc: &mut DocSide,
    lanes: &mut L,
    early: &mut P,
    room: &mut [u8],
    watch: &mut W,
) -> Result<End, Failure>
    requires table { job.now.table.now ≡ E.entities }
    requires first { doc.old ≡ first_shown job.now.table.now job.now.ahead }
    requires load { L.load lanes.old ≡ no_load }
    requires put { IfSome (L.put lanes.old) (λ asks. asks ≡ []) }
    requires taken { IfSome (L.taken lanes.old) (λ messages. messages ≡ []) }
    requires given { P.given early.old ≡ [] }
    requires room { 0 < length room.old }
    requires some { 0 < job.now.ahead }
    requires few { job.now.ahead ≤ 64 }
    requires watch { (W.doc watch.old ≡ ungrown) × (W.shown watch.old ≡ []) }
    ensures ok { IfOk result
        (λ outcome. EndsWithScripts job.now.table.now
        (folder_with (string_bytes job.now.dir) (P.given early.new))
        (F.seen files.old) (F.seen files.new)
        doc.new.desk.own.side.doc doc.new.desk.own.side.lines (K.taken out.old) (K.taken out.new)
        outcome) }
    ensures err { OnErr result
        (FrontWithScripts job.now.table.now
        (folder_with (string_bytes job.now.dir) (P.given early.new))
        (F.seen files.old) (F.seen files.new)
        (K.taken out.old) (K.taken out.new)) }
    ensures part { OnErr result
        (WritesInPart job.now.table.now job.now.ahead (K.taken out.old) (K.taken out.new)
        (IsDue doc.new)) }
    ensures out { IfOk result
        (λ outcome. RunsOut job.now.table.now job.now.ahead
        (folder_with (string_bytes job.now.dir) (P.given early.new))
        (F.seen files.old) (F.seen files.new)
        (K.taken out.old) (K.taken out.new) doc.new outcome) }
    ensures replays { ReplaysTo job.now.table.now job.now.ahead doc.new }
    ensures left { Leaves job.now.table.now job.now.ahead
        (folder_with (string_bytes job.now.dir) (P.given early.new))
        (F.seen files.old) (F.seen files.new) doc.new }
    ensures alone { LeavesAlone (string_bytes job.now.dir) (F.seen files.old) (F.seen files.new) }
    ensures cut { OnOk result (IsCut (length room.old) false (F.seen files.old) (F.seen files.new)
        doc.new.journal.pieces) }
    ensures cut_short { OnErr result
        (IsCut (length room.old) true (F.seen files.old) (F.seen files.new)
        doc.new.journal.pieces) }
    ensures write_cut { IsErrOf result Failure.Write → IsCut (length room.old) false
        (F.seen files.old) (F.seen files.new) doc.new.journal.pieces }
    ensures goes { Goes (P.given early.new) (L.put lanes.new) doc.new }
    ensures taken { OnOk result (TakenSoFar (L.taken lanes.new) doc.new.journal.events) }
    ensures write_taken { IsErrOf result Failure.Write
        → TakenSoFar (L.taken lanes.new) doc.new.journal.events }
    ensures more_taken { MayTakeMore (L.taken lanes.new) doc.new.journal.events }
    // Until memory runs out the counterpart tells on, and what it gave stays in order.
    ensures tells { OnOk result (TellsOn E.entities (L.put lanes.old) (L.put lanes.new)
        (L.taken lanes.old) (L.taken lanes.new) (L.ordered lanes.old) (L.ordered lanes.new)) }
    ensures crew { P.crew early.new ≡ P.crew early.old }
    ensures write { IsErrOf result Failure.Write → Rose (K.faults out.old) (K.faults out.new) }
    ensures faults { K.faults out.old ≤ K.faults out.new }
    // Who watches was told of the changes that the run made, each of them once, and shown documents
    // that it passed through.
    ensures watched { IsTrue (W.watches watch.old)
        → OnOk result (Follows doc.new (W.doc watch.new) (W.shown watch.new)) }
    ensures passed { IsTrue (W.watches watch.old) → AllPassed doc.new (W.shown watch.new) }
    ensures told { IsTrue (W.watches watch.old) → HasTold doc.new (W.doc watch.new) }
    ensures told_passed { IsTrue (W.watches watch.old) → Passed doc.new (W.doc watch.new).doc }
    ensures count { W.count watch.new ≡ W.count watch.old }
{
    let mut reader = PageReader::new(alloc);
    let ended = take_turns::<E, L, P, F, K, W>(
        alloc,
        job,
        files,
        out,
        doc,
        lanes,
        early,
        &mut reader,
        room,
        watch,
    );
    // What the journal replays to is known from here on.
    let _journal = doc.journal();
    ended
}

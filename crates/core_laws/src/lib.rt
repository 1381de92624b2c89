//! Laws of the core, proved of the definitions in `core_definitions`: on functions that do
//! nothing, so that a contract names each.
#![tactic(auto)]

ghost use Rattle.core_laws.specs.Alike.{ScriptsRename, MomentsRename, FetchesRename};
ghost use Rattle.core_laws.specs.Rebasing.{StatesRebase};
ghost use Rattle.core_laws.specs.DeskLaws.{AlwaysStandsFor, EndsAsSerial, EndStays, LinesBegin};
ghost use Rattle.core_laws.specs.DeskLaws.{FailuresAreEpochs, MoreMayFollow};
ghost use Rattle.core_laws.specs.CoreLaws.{CoreIsDesk, NeverStuck, EnabledSteps, OneStep};
ghost use Rattle.core_laws.specs.CoreLaws as core;
ghost use Rattle.core_laws.specs.Bounds.{CreditIsKept, BoundedWhereItStands, BoundedByTheParse};
ghost use Rattle.core_laws.specs.Replaying.{DeskIsCore, JournalsReplay, JournalsAreReached};
ghost use Rattle.core_laws.specs.OneResult.{OneVerdict, SettlesOnce, OneMove};

/// Scripts run alike where ids are renamed and where more of the page stands behind the input, up
/// to a moment at which all that was written is used; and so do scripts that were awaited.
pub fn moments_rename()
    ensures scripts { ScriptsRename }
    ensures moments { MomentsRename }
    ensures fetches { FetchesRename }
{}

/// A state under other ids goes on under others again from where it is: the ids to come are those
/// from another one on.
pub fn states_rebase()
    ensures { StatesRebase }
{}

/// A verdict, a script in hand, and an event of the document's side come to one result.
pub fn one_result()
    ensures verdict { OneVerdict }
    ensures settles { SettlesOnce }
    ensures moves { OneMove }
{}

/// The document's side by itself, for every list of events that are enabled: it stands for a state
/// that the serial parse passes through, and never for an earlier one; where it is done, result,
/// lines and tree are the serial parse's; its lines begin that parse's; as many scripts of the page
/// have failed as epochs are over.
pub fn desk_stands()
    ensures stands_for { AlwaysStandsFor }
    ensures ends { EndsAsSerial }
    ensures stays { EndStays }
    ensures lines { LinesBegin }
    ensures failures { FailuresAreEpochs }
    ensures more { MoreMayFollow }
{}

/// Both sides, for every list of events that are enabled, in whatever order: the document's side
/// takes the answers that are called for, so that all of `desk_stands` holds of it; where no event
/// but arrivals is enabled, the parse is over, or awaits a script that hasn't arrived; and each
/// event that is enabled has one step.
pub fn every_interleaving()
    ensures desk { CoreIsDesk }
    ensures stands_for { core.AlwaysStandsFor }
    ensures ends { core.EndsAsSerial }
    ensures stays { core.EndStays }
    ensures lines { core.LinesBegin }
    ensures never_stuck { NeverStuck }
    ensures steps { EnabledSteps }
    ensures one_step { OneStep }
{}

/// Never are more than `ahead` requests outstanding. The replies that were dropped number at most
/// `ahead` times the failed scripts, and the requests sent at most pieces and ending times one more
/// than these: those that failed at the moment for which the document's side stands, which are as
/// many as epochs are over, and so those that fail in the whole parse.
pub fn counts_are_bounded()
    ensures credit { CreditIsKept }
    ensures so_far { BoundedWhereItStands }
    ensures in_all { BoundedByTheParse }
{}

/// The desk to which events lead is that of a core, in which each reply is picked and given just
/// before it is taken; so a journal that replays on the document's side replays in the core, and
/// its desk is one to which all of `desk_stands` applies.
pub fn journals_replay()
    ensures desk { DeskIsCore }
    ensures journal { JournalsReplay }
    ensures reached { JournalsAreReached }
{}

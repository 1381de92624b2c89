//! Laws of the moments of the serial parse: how they come one behind another, and which ids are
//! bound at them. Each stands on a function that does nothing, so that a contract names it.
#![tactic(auto)]

ghost use Rattle.moment_laws.specs.Ways.{LeadsSame, LeadsNext, LeadsThen, BatchesGoThrough, GoesOn};
ghost use Rattle.moment_laws.specs.Ways.{ThroughLeads, ThroughSettles, NoEndingMatters};
ghost use Rattle.moment_laws.specs.Ways.{ParsesItsFront};
ghost use Rattle.moment_laws.specs.Served.{RoomServes, FirstHasRoom, TextsHaveRoom, EndsHaveRoom};
ghost use Rattle.moment_laws.specs.Served.{MomentsHaveRoom, RenewingHasRoom, MomentsServe};
ghost use Rattle.moment_laws.specs.Served.{MomentsBind, HeldHaveRoom};
ghost use Rattle.rule_laws.specs.Naming.{AreFresh};

/// Any two moments of the serial parse of which one leads to the other.
pub fn leads_on()
    ensures same { LeadsSame }
    ensures next { LeadsNext }
    ensures then { LeadsThen }
{}

/// Moments one behind another of which none is settled before the last: what is parsed of a front
/// of the input is such a way.
pub fn goes_through()
    ensures batches { BatchesGoThrough }
    ensures onward { GoesOn }
    ensures leads { ThroughLeads }
    ensures settles { ThroughSettles }
    ensures ending { NoEndingMatters }
{}

/// The parse of a text up to its first stop is that of the front that it uses.
pub fn parses_its_front()
    ensures { ParsesItsFront }
{}

/// No element has an id of a realm that is to come, nor of a later one: so it is at the beginning,
/// and so it stays behind a text, behind the end of the page and from moment to moment. A parser
/// whose next ids are of that realm is served then, with room for the realms behind it.
pub fn realms_have_room()
    ensures serves { RoomServes }
    ensures begins { FirstHasRoom }
    ensures texts { TextsHaveRoom }
    ensures ends { EndsHaveRoom }
    ensures moments { MomentsHaveRoom }
    ensures renewed { RenewingHasRoom }
{}

/// From moment to moment what was bound stays so, and what comes to be bound is of the realm of the
/// parser. So a parser of another realm, whose ids are bound, is served behind them as it was.
pub fn moments_bind()
    ensures serves { MomentsServe AreFresh }
    ensures binds { MomentsBind }
    ensures held { HeldHaveRoom }
{}

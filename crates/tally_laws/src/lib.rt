//! A law of the document's side: what its numbers say of the serial parse. It is the contract of a
//! function that does nothing.
#![tactic(auto)]

ghost use Rattle.tally_laws.specs.TallyLaws.{TalliesAsSerial};

/// Where the parse finished, the epochs and the realms of ids that were taken tell how many scripts
/// of the page left what was parsed ahead of them standing, and how many did not, as is told of the
/// serial parse; and scripts wrote as many characters, and as many were executed.
pub fn desk_tallies()
    ensures { TalliesAsSerial }
{}

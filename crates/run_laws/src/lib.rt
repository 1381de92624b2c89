//! Laws of the events of a journal, proved of the definitions in `core_definitions`: on functions
//! that do nothing, so that a contract names each.
#![tactic(auto)]

ghost use Rattle.run_laws.specs.RunLaws.{DropsAreOver};

/// Along each run in which all is as a journal has it: a reply is dropped only under an epoch that
/// is over, and so many scripts of the page have failed, at a moment that the serial parse passes
/// through.
pub fn replies_dropped()
    ensures { DropsAreOver }
{}

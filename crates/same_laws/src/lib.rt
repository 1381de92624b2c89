//! A law of the definitions of the parser's state: whether two states are the same can be told.
//! Each stands on a function that does nothing, so that a contract names it.
#![tactic(auto)]

ghost use Rattle.core_laws.specs.CoreLaws.{DecidesSame};
ghost use Rattle.same_laws.specs.Laws.{HaveSteps};

/// Whether two states of the parser are the same, the next id aside, can be told. So each event of
/// the core that is enabled has its step.
pub fn states_are_told_apart()
    ensures told { DecidesSame }
    ensures steps { HaveSteps }
{}

//! Laws of the stack of open elements (13.2.4.2 #the-stack-of-open-elements): what holds of it
//! whatever tokens come. Each stands on a function that does nothing, so that a contract names it.
#![tactic(auto)]

ghost use Rattle.stack_laws.specs.Grounded.{GroundedStand, OpeningIsGrounded, TokensStayGrounded};

/// As many template insertion modes are there as template elements are on the stack
/// (13.2.4.1 #the-insertion-mode), and its first element is an html element, where any is on it. So
/// it is of each grounded open state; the opening one is grounded, and so is one that a token
/// leaves which doesn't ask for one element too many.
pub fn stack_stands_on_its_root()
    ensures stands { GroundedStand }
    ensures opening { OpeningIsGrounded }
    ensures tokens { TokensStayGrounded }
{}

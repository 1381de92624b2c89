//! Whether what was parsed ahead of a script is kept.

ghost use Rattle.std.specs.Prelude.{◌≡◌, ◌↔◌};
ghost use Rattle.standard.specs.Parser.{AreSame};
ghost use Rattle.core_definitions.specs.Verdict.{IsVerdict};
ghost use Rattle.core_definitions.specs.declared.verdict.Verdict.TheVariants as verdict;

use core_definitions::Verdict;
use parse_machine::Machine;

/// A script has ended, and all that it wrote is used. The text behind its end tag was parsed ahead
/// from the state `held`, and the parser now stands at `now`. What was parsed ahead is thrown away
/// exactly where the two differ, the next id aside.
pub fn decide(held: &Machine, now: &Machine) -> Verdict
    ensures verdict { IsVerdict held.now now.now result }
    ensures keep { result ≡ verdict.Keep ↔ AreSame held.now now.now }
    ensures rewind { result ≡ verdict.Rewind ↔ ¬ (AreSame held.now now.now) }
{
    if held.same(now) {
        Verdict::Keep
    } else {
        Verdict::Rewind
    }
}

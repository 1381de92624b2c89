//! Laws of the page that `page_maker` makes, as a parse reads it. They are the contract of a
//! function that does nothing.
#![tactic(auto)]

ghost use Rattle.made_laws.specs.MadeLaws.{IsReadAsMade, IsInAscii, NamesNoEntity};

/// The page of at most 50,000 items is ASCII, so that its characters are its bytes; it is within
/// the limit of a page, and a parse reads it as it is. The file `{}` names no entity.
pub fn made_page_is_read()
    ensures ascii { IsInAscii }
    ensures page { IsReadAsMade }
    ensures entities { NamesNoEntity }
{}

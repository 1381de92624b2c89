//! White space, as tree construction takes it (13.2.6 #tree-construction).

ghost use Rattle.std.specs.Prelude.{◌≡◌};
ghost use Rattle.standard.specs.WhiteSpace.{is_space as is_white};

/// TAB, LF, FF, CR, SPACE. (A CR can come from a character reference.)
pub fn is_space(c: char) -> bool
    ensures { result ≡ is_white c }
{
    matches!(&c, '\t' | '\n' | '\u{c}' | '\r' | ' ')
}

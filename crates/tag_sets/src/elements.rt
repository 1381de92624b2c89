//! Which elements an instruction means.

ghost use Rattle.std.specs.Prelude.{◌≡◌};
ghost use Rattle.standard.specs.Elements.{is_word, is_one_of, ends_scope, is_own, is_meant};

use crate::foreign::is_foreign_stop;
use crate::sets::{is_in, stops_at};
use html_types::{Group, Name, Scope, Token, Who, Word};

/// Whether the name is that word.
pub fn is_the(word: Word, name: &Name) -> bool
    ensures { result ≡ is_word word name.now }
{
    match name {
        Name::Known(known) => known.same(word),
        Name::Other(_, _) => false,
    }
}

/// Whether the name is in the group.
pub fn is_any(group: Group, name: &Name) -> bool
    ensures { result ≡ is_one_of group name.now }
{
    match name {
        Name::Known(known) => is_in(group, *known),
        Name::Other(space, text) => match group {
            Group::Special => is_foreign_stop(*space, text),
            _ => false,
        },
    }
}

/// Whether an element of that name ends the search of "has an element in scope"
/// (13.2.4.2 #the-stack-of-open-elements).
pub fn ends(scope: Scope, name: &Name) -> bool
    ensures { result ≡ ends_scope scope name.now }
{
    match name {
        Name::Known(known) => stops_at(scope, *known),
        Name::Other(space, text) => match scope {
            Scope::Default | Scope::ListItem | Scope::Button => is_foreign_stop(*space, text),
            Scope::Table => false,
            Scope::Select => true,
        },
    }
}

/// Whether the name is that of the tag. Other tokens have none.
pub fn own(token: &Token, name: &Name) -> bool
    ensures { result ≡ is_own token.now name.now }
{
    match token {
        Token::StartTag(tag) => name.same(&tag.name),
        Token::EndTag(tag) => name.same(&tag.name),
        _ => false,
    }
}

/// Whether an element of that name is meant, at that token.
pub fn meant(who: Who, token: &Token, name: &Name) -> bool
    ensures { result ≡ is_meant who token.now name.now }
{
    match who {
        Who::Own => own(token, name),
        Who::The(word) => is_the(word, name),
        Who::Any(group) => is_any(group, name),
        Who::Nobody => false,
    }
}

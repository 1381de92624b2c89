//! The `type` of an input (13.2.6.4.7 #parsing-main-inbody).

ghost use Rattle.std.specs.Prelude.{◌≡◌, codes, Some};
ghost use Rattle.standard.specs.Tree.{attribute};
ghost use Rattle.standard.specs.Instructions.{is_hidden, is_hidden_input};

use html_types::{Tag, Text, Token};
use tag_sets::{is_spelled, value_of};

/// Whether the text is `hidden`, in any ASCII case.
fn is_hidden_text(text: &Text) -> bool
    ensures { result ≡ is_hidden (Some text.now) }
{
    is_spelled(text, "hidden")
}

/// Whether a tag's `type` is `hidden`.
#[tactic(auto, using(std::proofs::lemmas::Grind::common_steps, crate::proofs::Literals::type_text))]
fn has_hidden_type(tag: &Tag) -> bool
    ensures { result ≡ is_hidden (attribute (codes "type") tag.now.attributes) }
{
    match value_of(tag.attributes.as_slice(), "type") {
        None => false,
        Some(text) => is_hidden_text(text),
    }
}

/// Whether the token is a start tag whose `type` is `hidden`.
pub fn is_hidden_input(token: &Token) -> bool
    ensures { result ≡ is_hidden_input token.now }
{
    match token {
        Token::StartTag(tag) => has_hidden_type(tag),
        _ => false,
    }
}

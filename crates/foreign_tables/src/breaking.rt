//! The start tags at which foreign content is left (13.2.6.5 #parsing-main-inforeign).

ghost use Rattle.std.specs.Prelude.{◌≡◌};
ghost use Rattle.std.specs.List.{list_any};
ghost use Rattle.standard.specs.Rows.{has_word};
ghost use Rattle.standard.specs.Foreign.{breaking_words, is_font_attribute};
ghost use Rattle.standard.specs.Foreign.{breaks_out as breaks_out_of};

use html_types::word::Word::*;
use html_types::{Attribute, Name, Tag, Word};

// Whether a tag of that name leaves foreign content, whatever its attributes are.
fn is_breaking(word: Word) -> bool
    ensures { result ≡ has_word breaking_words word }
{
    matches!(
        &word,
        B | Big
            | Blockquote
            | Body
            | Br
            | Center
            | Code
            | Dd
            | Div
            | Dl
            | Dt
            | Em
            | Embed
            | H1
            | H2
            | H3
            | H4
            | H5
            | H6
            | Head
            | Hr
            | I
            | Img
            | Li
            | Listing
            | Menu
            | Meta
            | Nobr
            | Ol
            | P
            | Pre
            | Ruby
            | S
            | Small
            | Span
            | Strong
            | Strike
            | Sub
            | Sup
            | Table
            | Tt
            | U
            | Ul
            | Var
    )
}

// Whether an attribute is `color`, `face` or `size`.
#[tactic(auto, using(std::proofs::lemmas::Grind::common_steps, crate::proofs::Literals::color_text, crate::proofs::Literals::face_text, crate::proofs::Literals::size_text))]
fn is_font_attribute(attribute: &Attribute) -> bool
    ensures { result ≡ is_font_attribute attribute.now }
{
    attribute.name.is("color") || attribute.name.is("face") || attribute.name.is("size")
}

// Whether one of the attributes is `color`, `face` or `size`.
fn has_font_attribute(attributes: &[Attribute]) -> bool
    ensures { result ≡ list_any is_font_attribute attributes.now }
{
    for attribute in attributes {
        if is_font_attribute(attribute) {
            return true;
        }
    }
    false
}

/// Whether foreign content is left at a start tag: at `font` only where it has an attribute
/// `color`, `face` or `size`.
#[tactic(auto, unfolding(standard::specs::Foreign::breaks_out))]
pub fn breaks_out(tag: &Tag) -> bool
    ensures { result ≡ breaks_out_of tag.now }
{
    match &tag.name {
        Name::Known(word) => {
            is_breaking(*word) || word.same(Font) && has_font_attribute(tag.attributes.as_slice())
        }
        Name::Other(_, _) => false,
    }
}

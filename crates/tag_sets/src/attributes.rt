//! Attributes that tree construction looks at (13.2.6 #tree-construction,
//! 13.2.6.4.7 #parsing-main-inbody).

ghost use Rattle.std.specs.Prelude.{◌≡◌, codes, false, Some, IsTrue, map, nat_lt};
ghost use Rattle.std.specs.List.{list_all};
ghost use Rattle.std.specs.Char.{to_ascii_lowercase};
ghost use Rattle.std.specs.Option.{option_map};
ghost use Rattle.std.specs.Str.{chars};
ghost use Rattle.html_types.specs.Text.{same_text};
ghost use Rattle.standard.specs.Tree.{attribute};
ghost use Rattle.standard.specs.Foreign as definition;

use crate::foreign::is_annotation;
use html_types::{Attribute, Name, Text};

/// The value of the attribute with that name.
pub fn value_of<'a>(attributes: &'a [Attribute], name: &str) -> Option<&'a Text>
    ensures { option_map (λ text. text.now) result ≡ attribute (chars name.now) attributes.now }
{
    for attribute in attributes {
        if attribute.name.is(name) {
            return Some(&attribute.value);
        }
    }
    None
}

/// Whether the text is that name of ASCII characters, in any ASCII case.
pub fn is_spelled(text: &Text, name: &str) -> bool
    requires { IsTrue (list_all (λ b. nat_lt b 128) name.now) }
    ensures { result
        ≡ same_text (map to_ascii_lowercase text.now) (map to_ascii_lowercase name.now) }
{
    text.as_str().eq_ignore_ascii_case(name)
}

/// Whether a text is one of the encodings of HTML, in any ASCII case.
fn is_html_encoding(text: &Text) -> bool
    ensures { result ≡ definition.is_html_encoding (Some text.now) }
{
    is_spelled(text, "text/html") || is_spelled(text, "application/xhtml+xml")
}

/// Whether the `encoding` is one of HTML.
#[tactic(auto, using(std::proofs::lemmas::Grind::common_steps, crate::proofs::Literals::encoding_text))]
#[inline(never)]
fn has_html_encoding(attributes: &[Attribute]) -> bool
    ensures { result ≡ definition.is_html_encoding (attribute (codes "encoding") attributes.now) }
{
    match value_of(attributes, "encoding") {
        None => false,
        Some(text) => is_html_encoding(text),
    }
}

/// Whether an element of that name with those attributes is an annotation-xml of MathML that is
/// an HTML integration point (13.2.6 #tree-construction).
#[tactic(auto, unfolding(standard::specs::Foreign::is_html_annotation))]
#[inline]
pub fn is_html_annotation(name: &Name, attributes: &[Attribute]) -> bool
    ensures { result
        ≡ definition.is_html_annotation
        (record { name = name.now; attributes = attributes.now; self_closing = false }) }
{
    is_annotation(name) && has_html_encoding(attributes)
}

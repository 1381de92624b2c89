//! The elements of MathML and SVG that tree construction speaks of
//! (13.2.4.2 #the-stack-of-open-elements, 13.2.6 #tree-construction).

ghost use Rattle.std.specs.Prelude.{◌≡◌, codes};
ghost use Rattle.std.specs.Str.{chars};
ghost use Rattle.html_types.specs.Text.{same_text};
ghost use Rattle.standard.specs.Elements.{text_points, html_points, is_text_of};
ghost use Rattle.standard.specs.Elements.{is_foreign_stop as is_foreign_stop_of};
ghost use Rattle.standard.specs.Foreign.{is_annotation};

use html_types::{Name, NameText, Space};

/// Whether a name is written so.
pub fn is_text(name: &NameText, text: &str) -> bool
    ensures { result ≡ same_text name.now (chars text.now) }
{
    name.as_str() == text
}

/// Whether this is the name of a MathML text integration point (13.2.6 #tree-construction), in
/// MathML.
#[tactic(auto, using(std::proofs::lemmas::Grind::common_steps, crate::proofs::Literals::mi_text, crate::proofs::Literals::mo_text, crate::proofs::Literals::mn_text, crate::proofs::Literals::ms_text, crate::proofs::Literals::mtext_text))]
pub fn is_math_text(name: &NameText) -> bool
    ensures { result ≡ is_text_of text_points name.now }
{
    is_text(name, "mi")
        || is_text(name, "mo")
        || is_text(name, "mn")
        || is_text(name, "ms")
        || is_text(name, "mtext")
}

/// Whether this is the name of an HTML integration point (13.2.6 #tree-construction), in SVG.
#[tactic(auto, using(std::proofs::lemmas::Grind::common_steps, crate::proofs::Literals::foreign_object_text, crate::proofs::Literals::desc_text, crate::proofs::Literals::title_text))]
pub fn is_svg_point(name: &NameText) -> bool
    ensures { result ≡ is_text_of html_points name.now }
{
    is_text(name, "foreignObject") || is_text(name, "desc") || is_text(name, "title")
}

/// Whether this is the name `annotation-xml`.
#[tactic(auto, using(std::proofs::lemmas::Grind::common_steps, crate::proofs::Literals::annotation_text))]
pub fn is_annotation_text(name: &NameText) -> bool
    ensures { result ≡ same_text name.now (codes "annotation-xml") }
{
    is_text(name, "annotation-xml")
}

/// Whether this is the name of an annotation-xml of MathML.
pub fn is_annotation(name: &Name) -> bool
    ensures { result ≡ is_annotation name.now }
{
    match name {
        Name::Other(Space::MathMl, text) => is_annotation_text(text),
        _ => false,
    }
}

/// Whether an element of MathML or SVG is special, and ends the search of "has an element in scope"
/// (13.2.4.2 #the-stack-of-open-elements).
#[tactic(auto, unfolding(standard::specs::Elements::is_foreign_stop))]
pub fn is_foreign_stop(space: Space, name: &NameText) -> bool
    ensures { result ≡ is_foreign_stop_of space name.now }
{
    match space {
        Space::Html => false,
        Space::MathMl => is_math_text(name) || is_annotation_text(name),
        Space::Svg => is_svg_point(name),
    }
}

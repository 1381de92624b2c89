//! Foreign elements: the adjusted current node (13.2.4.2 #the-stack-of-open-elements), the
//! integration points (13.2.6 #tree-construction), and the tags of foreign elements
//! (13.2.6.1 #creating-and-inserting-nodes).

ghost use Rattle.std.specs.Prelude.{◌≡◌, false, IfOk, unwrap_or, option_map};
ghost use Rattle.std.specs.Str.{chars};
ghost use Rattle.standard.specs.Foreign as definition;
ghost use Rattle.standard.specs.Rules.{rules_for as rules_of};
ghost use Rattle.builder_state.specs.Texts.{text_rules as rules_of_text};

use foreign_tables::{math_attribute, svg_attribute, svg_name};
use html_types::{
    Attribute, Attributes, Mode, Name, NoMemory, NodeId, Open, OpenElement, Space, Tag, Text,
    Token, Word,
};
use std::alloc::Global;
use tag_sets::{is_annotation, is_html_annotation, is_math_text, is_svg_point, is_the};

/// The adjusted current node (13.2.4.2 #the-stack-of-open-elements).
pub fn adjusted(state: &Open) -> Option<&OpenElement>
    ensures { option_map (λ e. e.now) result ≡ definition.adjusted state.now }
{
    match &state.context {
        Some(context) if state.stack.len() == 1 => Some(context),
        _ => state.stack.latest(),
    }
}

/// Whether the name is one of HTML.
pub fn is_html(name: &Name) -> bool
    ensures { result ≡ definition.is_html name.now }
{
    match name {
        Name::Known(_) => true,
        Name::Other(Space::Html, _) => true,
        Name::Other(_, _) => false,
    }
}

/// Whether the element is a MathML text integration point (13.2.6 #tree-construction).
pub fn is_text_point(element: &OpenElement) -> bool
    ensures { result ≡ definition.is_text_point element.now }
{
    match &element.name {
        Name::Other(Space::MathMl, name) => is_math_text(name),
        _ => false,
    }
}

/// Whether the element is an HTML integration point (13.2.6 #tree-construction).
pub fn is_html_point(element: &OpenElement) -> bool
    ensures { result ≡ definition.is_html_point element.now }
{
    match &element.name {
        Name::Other(Space::Svg, name) => is_svg_point(name) || element.html_point,
        _ => element.html_point,
    }
}

/// Whether an element is of HTML or an integration point: leaving foreign content stops there
/// (13.2.6.5 #parsing-main-inforeign).
#[tactic(auto, unfolding(standard::specs::Foreign::is_html_or_point))]
pub fn is_html_or_point(element: &OpenElement) -> bool
    ensures { result ≡ definition.is_html_or_point element.now }
{
    is_html(&element.name) || is_text_point(element) || is_html_point(element)
}

/// Whether a MathML text integration point leaves the token to the insertion mode.
fn is_for_text_point(token: &Token) -> bool
    ensures { result ≡ definition.is_for_text_point token.now }
{
    match token {
        Token::Character(_) => true,
        Token::StartTag(tag) => !matches!(
            &tag.name,
            Name::Known(Word::Mglyph) | Name::Known(Word::Malignmark)
        ),
        _ => false,
    }
}

/// Whether an HTML integration point leaves the token to the insertion mode.
fn is_for_html_point(token: &Token) -> bool
    ensures { result ≡ definition.is_for_html_point token.now }
{
    matches!(token, Token::Character(_) | Token::StartTag(_))
}

/// Whether the token is a start tag `svg`.
fn is_svg_start(token: &Token) -> bool
    ensures { result ≡ definition.is_svg_start token.now }
{
    match token {
        Token::StartTag(tag) => is_the(Word::Svg, &tag.name),
        _ => false,
    }
}

/// Whether the token goes by the rules of the insertion mode, where the adjusted current node is
/// this one.
fn goes_by_mode(element: &OpenElement, token: &Token) -> bool
    ensures { result ≡ definition.goes_by_mode token.now element.now }
{
    is_html(&element.name)
        || is_text_point(element) && is_for_text_point(token)
        || is_annotation(&element.name) && is_svg_start(token)
        || is_html_point(element) && is_for_html_point(token)
        || matches!(token, Token::EndOfFile)
}

/// Whether the token goes by the rules for foreign content (13.2.6 #tree-construction).
#[tactic(auto, unfolding(standard::specs::Foreign::goes_foreign))]
pub fn goes_foreign(state: &Open, token: &Token) -> bool
    ensures { result ≡ definition.goes_foreign token.now (definition.adjusted state.now) }
{
    match adjusted(state) {
        None => false,
        Some(element) => !goes_by_mode(element, token),
    }
}

/// The rules that a token goes by (13.2.6 #tree-construction): those of the insertion mode, or
/// those for foreign content.
pub fn rules_for(state: &Open, token: &Token) -> Mode
    ensures { result ≡ rules_of token.now state.now }
{
    if goes_foreign(state, token) {
        Mode::InForeign
    } else {
        state.mode
    }
}

/// The rules that characters go by, each by the same.
pub fn text_rules(state: &Open) -> Mode
    ensures { result ≡ rules_of_text state.now }
{
    rules_for(state, &Token::Character('\0'))
}

/// Whether the adjusted current node (13.2.4.2 #the-stack-of-open-elements) is an element of MathML
/// or SVG.
#[tactic(auto, unfolding(standard::specs::Foreign::is_foreign))]
pub fn is_foreign(state: &Open) -> bool
    ensures { result ≡ definition.is_foreign state.now }
{
    match adjusted(state) {
        None => false,
        Some(element) => !is_html(&element.name),
    }
}

/// The open element that is made for a tag.
#[tactic(auto, unfolding(standard::specs::Foreign::is_html_annotation))]
pub fn opened(id: NodeId, tag: &Tag) -> Result<OpenElement, NoMemory>
    ensures { IfOk result (λ e. e ≡ definition.opened id tag.now) }
{
    let name = tag.name.copy()?;
    Ok(OpenElement {
        id,
        name,
        html_point: is_html_annotation(&tag.name, tag.attributes.as_slice()),
    })
}

/// The name in a namespace, as it is written.
fn name_in(alloc: Global, space: Space, name: &Name) -> Result<Name, NoMemory>
    ensures { IfOk result (λ n. n ≡ definition.name_in space name.now) }
{
    match space {
        Space::Html => name.copy(),
        Space::MathMl | Space::Svg => Name::other(alloc, space, name.as_str()),
    }
}

/// The name that a namespace has for that of a tag.
fn foreign_name(alloc: Global, space: Space, name: &Name) -> Result<Name, NoMemory>
    ensures { IfOk result (λ n. n ≡ definition.foreign_name space name.now) }
{
    match space {
        Space::Html | Space::MathMl => name_in(alloc, space, name),
        Space::Svg => match svg_name(name.as_str()) {
            None => name_in(alloc, space, name),
            Some(written) => Name::other(alloc, space, written),
        },
    }
}

/// How a namespace spells the name of an attribute, where it isn't in lower case.
fn respelled(space: Space, lower: &str) -> Option<&'static str>
    ensures { unwrap_or (option_map (λ name. chars name.now) result) (chars lower.now)
        ≡ definition.attribute_name space (chars lower.now) }
{
    match space {
        Space::Html => None,
        Space::MathMl => math_attribute(lower),
        Space::Svg => svg_attribute(lower),
    }
}

/// The name of an attribute as a namespace has it.
fn attribute_name(alloc: Global, space: Space, lower: &Text) -> Result<Text, NoMemory>
    ensures { IfOk result (λ name. name ≡ definition.attribute_name space lower.now) }
{
    match respelled(space, lower.as_str()) {
        None => lower.copy(alloc),
        Some(written) => Text::from_str(alloc, written),
    }
}

/// Whether a namespace spells the name of one of the attributes otherwise.
#[tactic(auto, unfolding(standard::specs::Foreign::foreign_attributes))]
fn has_respelled(space: Space, attributes: &[Attribute]) -> bool
    ensures { result ≡ false → definition.foreign_attributes space attributes.now ≡ attributes.now }
{
    for attribute in attributes {
        if respelled(space, attribute.name.as_str()).is_some() {
            return true;
        }
    }
    false
}

/// Attributes under the names that a namespace has for them
/// (13.2.6.1 #creating-and-inserting-nodes).
#[tactic(auto, unfolding(standard::specs::Foreign::foreign_attributes))]
fn foreign_attributes(
    alloc: Global,
    space: Space,
    attributes: &Attributes,
) -> Result<Attributes, NoMemory>
    ensures { IfOk result (λ a. a ≡ definition.foreign_attributes space attributes.now) }
{
    if !has_respelled(space, attributes.as_slice()) {
        return attributes.copy(alloc);
    }
    let mut adjusted = Attributes::new(alloc);
    for attribute in attributes.as_slice() {
        let name = attribute_name(alloc, space, &attribute.name)?;
        let value = attribute.value.copy(alloc)?;
        adjusted.push(Attribute { name, value })?;
    }
    Ok(adjusted)
}

/// The tag of a foreign element, by its own name.
#[tactic(auto, unfolding(standard::specs::Foreign::tag_in))]
pub fn tag_in(alloc: Global, space: Space, tag: &Tag) -> Result<Tag, NoMemory>
    ensures { IfOk result (λ t. t ≡ definition.tag_in space tag.now) }
{
    let name = name_in(alloc, space, &tag.name)?;
    let attributes = foreign_attributes(alloc, space, &tag.attributes)?;
    Ok(Tag {
        name,
        attributes,
        self_closing: tag.self_closing,
    })
}

/// The tag of a foreign element, under the name that the namespace has for it.
#[tactic(auto, unfolding(standard::specs::Foreign::foreign_tag))]
pub fn foreign_tag(alloc: Global, space: Space, tag: &Tag) -> Result<Tag, NoMemory>
    ensures { IfOk result (λ t. t ≡ definition.foreign_tag space tag.now) }
{
    let name = foreign_name(alloc, space, &tag.name)?;
    let attributes = foreign_attributes(alloc, space, &tag.attributes)?;
    Ok(Tag {
        name,
        attributes,
        self_closing: tag.self_closing,
    })
}

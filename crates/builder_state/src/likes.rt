//! An entry more in the list of active formatting elements: of four that are alike the earliest
//! goes (13.2.4.3 #the-list-of-active-formatting-elements).

ghost use Rattle.std.specs.Prelude.{◌≡◌, ◌<◌, length, reverse, remove, IfOk, MatchOption};
ghost use Rattle.builder_state.specs.Pairs.{pair_text, pairs_of, all_found};
ghost use Rattle.standard.specs.Formatting.{same_attribute, has_attribute, are_among};
ghost use Rattle.standard.specs.Formatting.{same_attributes, is_like, likes, without_earliest};
ghost use Rattle.standard.specs.Formatting.{list_element};

use html_types::{
    ActiveFormatting, Attribute, Attributes, FormattingEntry, NoMemory, NodeId, Tag, Text,
};
use std::alloc::Global;

/// How many entries behind the last marker may be alike.
const ALIKE: usize = 3;

/// So many attributes are looked through one after another.
const FEW: usize = 16;

/// Behind so many entries a tag has a sum, by which most that differ are told apart.
const SHORT: usize = 4;

/// Whether two attributes are the same.
fn is_same(a: &Attribute, b: &Attribute) -> bool
    ensures { result ≡ same_attribute a.now b.now }
{
    a.name.same(&b.name) && a.value.same(&b.value)
}

/// Whether an attribute is among others.
fn has(attribute: &Attribute, others: &[Attribute]) -> bool
    ensures { result ≡ has_attribute attribute.now others.now }
{
    for other in others {
        if is_same(attribute, other) {
            return true;
        }
    }
    false
}

/// Whether each of some attributes is among others.
fn all_among(attributes: &[Attribute], others: &[Attribute]) -> bool
    ensures { result ≡ are_among attributes.now others.now }
{
    for attribute in attributes {
        if !has(attribute, others) {
            return false;
        }
    }
    true
}

/// A text of an attribute's name and value, which no other attribute has.
fn pair_text(alloc: Global, attribute: &Attribute) -> Result<Text, NoMemory>
    ensures { IfOk result (λ text. text ≡ pair_text attribute.now) }
{
    let mut text = Text::new(alloc);
    for c in attribute.name.as_str().chars() {
        text.push('\0')?;
        text.push(c)?;
    }
    text.push('\u{1}')?;
    text.push_str(attribute.value.as_str())?;
    Ok(text)
}

/// Those texts as names of attributes, so that each is found in the logarithm of their number.
fn pairs_of(alloc: Global, attributes: &[Attribute]) -> Result<Attributes, NoMemory>
    ensures { IfOk result (λ pairs. pairs ≡ pairs_of attributes.now) }
{
    let mut pairs = Attributes::new(alloc);
    for attribute in attributes {
        pairs.push(Attribute {
            name: pair_text(alloc, attribute)?,
            value: Text::new(alloc),
        })?;
    }
    Ok(pairs)
}

/// Whether each of some attributes is among those whose texts are names.
fn all_found(alloc: Global, attributes: &[Attribute], pairs: &Attributes) -> Result<bool, NoMemory>
    ensures { IfOk result (λ found. found ≡ all_found pairs.now attributes.now) }
{
    for attribute in attributes {
        if !pairs.has(&pair_text(alloc, attribute)?) {
            return Ok(false);
        }
    }
    Ok(true)
}

/// Whether two lists have the same attributes, whatever their order, where one may have many.
#[tactic(auto, using(std::proofs::lemmas::Grind::common_steps, crate::proofs::Pairs::found_among))]
fn are_same_of_many(alloc: Global, a: &[Attribute], b: &[Attribute]) -> Result<bool, NoMemory>
    ensures { IfOk result (λ same. same ≡ same_attributes a.now b.now) }
{
    if !all_found(alloc, a, &pairs_of(alloc, b)?)? {
        return Ok(false);
    }
    all_found(alloc, b, &pairs_of(alloc, a)?)
}

/// Whether two lists have the same attributes, whatever their order. Of a few those of the other
/// are asked for first: where it has no name twice, one that is missing is soon met.
fn are_same(alloc: Global, a: &[Attribute], b: &[Attribute]) -> Result<bool, NoMemory>
    ensures { IfOk result (λ same. same ≡ same_attributes a.now b.now) }
{
    if a.len() <= FEW {
        return Ok(all_among(b, a) && all_among(a, b));
    }
    if b.len() <= FEW {
        return Ok(all_among(a, b) && all_among(b, a));
    }
    are_same_of_many(alloc, a, b)
}

/// Whether two tags have the same name and the same attributes. Most that have not are told apart
/// by their sums.
#[tactic(auto, using(std::proofs::lemmas::Grind::common_steps, crate::proofs::Apart::never_same, crate::proofs::Apart::same_itself))]
fn are_alike(alloc: Global, a: &Tag, b: &Tag) -> Result<bool, NoMemory>
    ensures { IfOk result (λ alike. alike ≡ is_like a.now b.now) }
{
    if !a.name.same(&b.name) {
        return Ok(false);
    }
    if a.attributes.are_apart(&b.attributes) {
        return Ok(false);
    }
    if a.attributes.same(&b.attributes) {
        return Ok(true);
    }
    are_same(alloc, a.attributes.as_slice(), b.attributes.as_slice())
}

/// How many entries behind the last marker are like the tag.
fn count_alike(alloc: Global, formats: &ActiveFormatting, tag: &Tag) -> Result<usize, NoMemory>
    ensures { IfOk result (λ count. count ≡ likes tag.now formats.now) }
{
    let mut count = 0;
    for entry in formats.walk() {
        match entry {
            FormattingEntry::Marker => return Ok(count),
            FormattingEntry::Element { id: _, tag: other } => {
                if are_alike(alloc, tag, other)? {
                    count += 1;
                }
            }
        }
    }
    Ok(count)
}

/// Where the earliest of so many entries stands that are like the tag, counted from the first
/// entry.
fn place_of_earliest(
    alloc: Global,
    formats: &ActiveFormatting,
    tag: &Tag,
    count: usize,
) -> Result<Option<usize>, NoMemory>
    requires { count ≡ likes tag.now formats.now }
    ensures { IfOk result (λ place. MatchOption place
        (without_earliest tag.now formats.now ≡ formats.now)
        (λ i. (i < length formats.now)
        × (without_earliest tag.now formats.now ≡ reverse (remove (reverse formats.now) i)))) }
{
    let mut left = count;
    let mut walk = formats.walk();
    while let Some(entry) = walk.next() {
        match entry {
            FormattingEntry::Marker => return Ok(None),
            FormattingEntry::Element { id: _, tag: other } => {
                if are_alike(alloc, tag, other)? {
                    left -= 1;
                    if left == 0 {
                        return Ok(Some(walk.len()));
                    }
                }
            }
        }
    }
    Ok(None)
}

/// Makes an element the latest entry. Where three entries behind the last marker are like it, the
/// earliest of them goes.
pub fn enter(
    alloc: Global,
    formats: &mut ActiveFormatting,
    id: NodeId,
    tag: Tag,
) -> Result<(), NoMemory>
    ensures { IfOk result (λ _. formats.new ≡ list_element id tag formats.old) }
{
    let mut tag = tag;
    // Most lists are so short that comparing is cheaper.
    if formats.len() > SHORT || tag.attributes.as_slice().len() > FEW {
        tag.attributes.sum_up()?;
    }
    let count = count_alike(alloc, formats, &tag)?;
    if count >= ALIKE {
        if let Some(place) = place_of_earliest(alloc, formats, &tag, count)? {
            formats.take_out(place)?;
        }
    }
    formats.push(FormattingEntry::Element { id, tag })?;
    Ok(())
}

//! The parts of a tag that is being read.

ghost use Rattle.std.specs.Prelude.{◌≡◌, IfOk};
ghost use Rattle.standard.specs.TagStates as rows;

use char_class::shown;
use html_types::{Attribute, NoMemory, PartialTag, Text};
use std::alloc::Global;

/// The tag with the attribute that was held, if one was.
pub fn with_attribute(mut tag: PartialTag, held: Option<Attribute>) -> Result<PartialTag, NoMemory>
    ensures { IfOk result (λ t. t ≡ rows.with_attribute tag held) }
{
    if let Some(attribute) = held {
        tag.attributes.push(attribute)?;
    }
    Ok(tag)
}

/// The attribute whose name is held, with an empty value.
pub fn bare(alloc: Global, held: Option<Text>) -> Option<Attribute>
    ensures { result ≡ rows.bare held }
{
    match held {
        None => None,
        Some(name) => Some(Attribute {
            name,
            value: Text::new(alloc),
        }),
    }
}

/// The tag with the attribute whose name is held, with an empty value.
pub fn with_bare(alloc: Global, tag: PartialTag, held: Option<Text>) -> Result<PartialTag, NoMemory>
    ensures { IfOk result (λ t. t ≡ rows.with_bare tag held) }
{
    with_attribute(tag, bare(alloc, held))
}

/// The name that was read, or none where the tag has it: that attribute is dropped.
pub fn fresh(tag: &PartialTag, name: Text) -> Option<Text>
    ensures { result ≡ rows.fresh tag.now name }
{
    if tag.attributes.has(&name) {
        None
    } else {
        Some(name)
    }
}

/// One more character in a held value.
pub fn longer_value(held: Option<Attribute>, c: char) -> Result<Option<Attribute>, NoMemory>
    ensures { IfOk result (λ h. h ≡ rows.longer_value held c) }
{
    match held {
        None => Ok(None),
        Some(mut attribute) => {
            attribute.value.push(shown(c))?;
            Ok(Some(attribute))
        }
    }
}

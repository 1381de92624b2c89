//! How much of an open state a copy copies, and a comparison reads. These are hints: no contract
//! speaks of them.

use html_types::{ActiveFormatting, Elements, FormattingEntry, Name, Open, Tag};

/// A text of so many bytes is short.
const SHORT: usize = 4096;

/// Lists are short where a comparison of two reads so many bytes, an entry counted for sixteen
/// more.
const SHORT_LISTS: usize = 16_384;

fn left_of_name(name: &Name, bytes: usize) -> Option<usize> {
    match name {
        Name::Known(_) => Some(bytes),
        Name::Other(_, text) => bytes.checked_sub(text.as_str().len()),
    }
}

fn left_of_tag(tag: &Tag, bytes: usize) -> Option<usize> {
    let left = left_of_name(&tag.name, bytes)?;
    tag.attributes.left_of(left)
}

/// What is left of so many bytes behind the entries and the names and attributes of their tags,
/// where they have no more.
fn left_of_formats(formats: &ActiveFormatting, bytes: usize) -> Option<usize> {
    let mut left = bytes;
    for entry in formats.walk() {
        left = left.checked_sub(16)?;
        if let FormattingEntry::Element { id: _, tag } = entry {
            left = left_of_tag(tag, left)?;
        }
    }
    Some(left)
}

/// The same behind the names of open elements.
fn left_of_stack(stack: Elements<'_>, bytes: usize) -> Option<usize> {
    let mut left = bytes;
    for element in stack {
        left = left_of_name(&element.name, left)?;
    }
    Some(left)
}

fn are_short(state: &Open) -> bool {
    match left_of_formats(&state.formats, SHORT_LISTS) {
        None => false,
        Some(left) => left_of_stack(state.stack.walk(), left).is_some(),
    }
}

/// Whether the pending text is short, and so are the two lists, where a comparison goes through
/// what copies share. (Template modes are no more than the open elements, at most 512.)
pub(crate) fn is_light(state: &Open) -> bool {
    state.pending_text.as_str().len() <= SHORT && are_short(state)
}

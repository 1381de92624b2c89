//! Walks over the list of active formatting elements
//! (13.2.4.3 #the-list-of-active-formatting-elements), from the latest entry up.

ghost use Rattle.std.specs.Prelude.{◌≡◌, ◌<◌, [], length, reverse, remove, IfOk, IsTrue};
ghost use Rattle.std.specs.Prelude.{MatchOption};
ghost use Rattle.standard.specs.Elements.{is_meant, is_word};
ghost use Rattle.standard.specs.Formatting.{listed, clear_to_marker, lost, kept, entry_named};
ghost use Rattle.standard.specs.Formatting.{without_entry};
ghost use Rattle.standard.specs.Stack.{is_open};

use crate::walks::has_open;
use html_types::{
    ActiveFormatting, FormattingEntry, NoMemory, NodeId, Stack, Tag, Token, Who, Word,
};
use std::alloc::Global;
use tag_sets::{is_the, meant};

/// Whether one that is meant stands behind the last marker.
pub fn is_listed(formats: &ActiveFormatting, who: Who, token: &Token) -> bool
    ensures { result ≡ listed (is_meant who token.now) formats.now }
{
    for entry in formats.walk() {
        match entry {
            FormattingEntry::Marker => return false,
            FormattingEntry::Element { id: _, tag } => {
                if meant(who, token, &tag.name) {
                    return true;
                }
            }
        }
    }
    false
}

/// The element of the latest entry of that name behind the last marker.
pub fn entry_of(formats: &ActiveFormatting, word: Word) -> Option<NodeId>
    ensures { result ≡ entry_named (is_word word) formats.now }
{
    for entry in formats.walk() {
        match entry {
            FormattingEntry::Marker => return None,
            FormattingEntry::Element { id, tag } => {
                if is_the(word, &tag.name) {
                    return Some(*id);
                }
            }
        }
    }
    None
}

/// Where the entry of an element stands, counted from the first entry.
fn place_of_entry(formats: &ActiveFormatting, id: NodeId) -> Option<usize>
    ensures { MatchOption result
        (without_entry id formats.now ≡ formats.now)
        (λ i. (i < length formats.now)
        × (without_entry id formats.now ≡ reverse (remove (reverse formats.now) i))) }
{
    let mut walk = formats.walk();
    while let Some(entry) = walk.next() {
        match entry {
            FormattingEntry::Marker => {}
            FormattingEntry::Element { id: other, tag: _ } => {
                if other.same(id) {
                    return Some(walk.len());
                }
            }
        }
    }
    None
}

/// Takes the entry of an element off the list, wherever it stands there.
pub fn take_entry_off(formats: &mut ActiveFormatting, id: NodeId) -> Result<(), NoMemory>
    ensures { IfOk result (λ _. formats.new ≡ without_entry id formats.old) }
{
    if let Some(place) = place_of_entry(formats, id) {
        formats.take_out(place)?;
    }
    Ok(())
}

/// Clears the list up to the last marker, which goes too.
pub fn clear_back(formats: &mut ActiveFormatting)
    ensures { formats.new ≡ clear_to_marker formats.old }
{
    while let Some(last) = formats.latest() {
        let found = matches!(last, FormattingEntry::Marker);
        formats.pop();
        if found {
            return;
        }
    }
}

/// Whether the element of that id is the current node.
#[inline]
fn is_last(stack: &Stack, id: NodeId) -> bool
    ensures { IsTrue result → IsTrue (is_open id stack.now) }
{
    match stack.latest() {
        None => false,
        Some(last) => last.id.same(id),
    }
}

/// Whether no entry stands behind the last marker or open entry, as at nearly each character of a
/// page. Mostly the latest entry's element is the current node.
#[inline]
pub fn none_lost(formats: &ActiveFormatting, stack: &Stack) -> bool
    ensures lost { IsTrue result → lost stack.now formats.now ≡ [] }
    ensures kept { IsTrue result → kept stack.now formats.now ≡ formats.now }
{
    match formats.latest() {
        None => true,
        Some(FormattingEntry::Marker) => true,
        Some(FormattingEntry::Element { id, tag: _ }) => {
            is_last(stack, *id) || has_open(stack, *id)
        }
    }
}

/// Takes the entries behind the last marker or open entry off the list: their tags, the latest
/// first.
pub fn take_lost(
    alloc: Global,
    formats: &mut ActiveFormatting,
    stack: &Stack,
) -> Result<Vec<Tag>, NoMemory>
    ensures tags { IfOk result (λ tags. tags.items ≡ lost stack.now formats.old) }
    ensures kept { IfOk result (λ _. formats.new ≡ kept stack.now formats.old) }
{
    let mut tags = Vec::new(alloc);
    while let Some(FormattingEntry::Element { id, tag }) = formats.latest() {
        if has_open(stack, *id) {
            return Ok(tags);
        }
        tags.push(tag.copy(alloc)?)?;
        formats.pop();
    }
    Ok(tags)
}

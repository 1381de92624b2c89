//! The list of active formatting elements, by the elements of its entries.

ghost use Rattle.std.specs.Prelude.{◌≡◌, ◌++◌, IfOk};
ghost use Rattle.standard.specs.Formatting.{has_entry, tag_of_entry, later_than, entry_on, with_id};
ghost use Rattle.standard.specs.Formatting.{with_behind};

use html_types::{ActiveFormatting, FormattingEntry, NoMemory, NodeId, Tag};
use std::alloc::Global;

/// Whether an element has an entry.
pub fn has_entry(formats: &ActiveFormatting, id: NodeId) -> bool
    ensures { result ≡ has_entry id formats.now }
{
    for entry in formats.walk() {
        match entry {
            FormattingEntry::Marker => {}
            FormattingEntry::Element { id: other, tag: _ } => {
                if other.same(id) {
                    return true;
                }
            }
        }
    }
    false
}

/// A copy of the tag for which an element with an entry was made.
pub fn tag_of(
    alloc: Global,
    formats: &ActiveFormatting,
    id: NodeId,
) -> Result<Option<Tag>, NoMemory>
    ensures { IfOk result (λ tag. tag ≡ tag_of_entry id formats.now) }
{
    for entry in formats.walk() {
        match entry {
            FormattingEntry::Marker => {}
            FormattingEntry::Element { id: other, tag } => {
                if other.same(id) {
                    let tag = tag.copy(alloc)?;
                    return Ok(Some(tag));
                }
            }
        }
    }
    Ok(None)
}

/// Takes the entries behind that of an element off, the latest first.
fn take_later(
    alloc: Global,
    formats: &mut ActiveFormatting,
    id: NodeId,
) -> Result<Vec<FormattingEntry>, NoMemory>
    ensures taken { IfOk result (λ taken. taken.items ≡ later_than id formats.old) }
    ensures left { IfOk result (λ _. formats.new ≡ entry_on id formats.old) }
{
    let mut taken = Vec::new(alloc);
    while let Some(last) = formats.take()? {
        match last {
            FormattingEntry::Marker => taken.push(FormattingEntry::Marker)?,
            FormattingEntry::Element { id: other, tag } => {
                if other.same(id) {
                    formats.push(FormattingEntry::Element { id: other, tag })?;
                    return Ok(taken);
                }
                taken.push(FormattingEntry::Element { id: other, tag })?;
            }
        }
    }
    Ok(taken)
}

/// Puts entries on that were taken off.
fn put_back(formats: &mut ActiveFormatting, mut taken: Vec<FormattingEntry>) -> Result<(), NoMemory>
    ensures { IfOk result (λ _. formats.new ≡ taken.items ++ formats.old) }
{
    while let Some(entry) = taken.pop() {
        formats.push(entry)?;
    }
    Ok(())
}

/// The entry of an element becomes that of another.
pub fn renew_entry(
    alloc: Global,
    formats: &mut ActiveFormatting,
    id: NodeId,
    new: NodeId,
) -> Result<(), NoMemory>
    ensures { IfOk result (λ _. formats.new ≡ with_id id new formats.old) }
{
    let later = take_later(alloc, formats, id)?;
    match formats.take()? {
        None => {}
        Some(FormattingEntry::Marker) => formats.push(FormattingEntry::Marker)?,
        Some(FormattingEntry::Element { id: _, tag }) => formats.push(FormattingEntry::Element {
            id: new,
            tag,
        })?,
    }
    put_back(formats, later)
}

/// Puts an entry just behind that of an element.
pub fn insert_behind(
    alloc: Global,
    formats: &mut ActiveFormatting,
    id: NodeId,
    entry: FormattingEntry,
) -> Result<(), NoMemory>
    ensures { IfOk result (λ _. formats.new ≡ with_behind id entry formats.old) }
{
    let later = take_later(alloc, formats, id)?;
    formats.push(entry)?;
    put_back(formats, later)
}

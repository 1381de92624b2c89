//! From the furthest block up to the formatting element: the elements between them are cloned, each
//! into the next.

ghost use Rattle.std.specs.Prelude.{◌≡◌, ◌++◌, ◌∷◌, [], None, IfOk};
ghost use Rattle.html_types.specs.declared.operation.Op.TheVariants as op;
ghost use Rattle.html_types.specs.declared.operation.Place.TheVariants.{Inside};
ghost use Rattle.standard.specs.Adoption.{climb_at, climb_one, climb};

use crate::entries::{renew_entry, tag_of};
use builder_state::{opened, take_entry_off, take_id};
use html_types::{ActiveFormatting, NoMemory, NodeId, OpenElement, Place};
use std::alloc::Global;
use text_store::Ops;

/// How many elements may keep their entries.
const KEPT: u8 = 3;

/// What the climb has come to.
#[derive(Drop)]
pub struct Climb {
    /// What is left of the elements between, the current node first.
    pub kept: Vec<OpenElement>,
    /// The node that was put last.
    pub last: NodeId,
    /// The bookmark is just behind the entry of that element, or at that of the formatting element.
    pub bookmark: Option<NodeId>,
}

/// One element: where it has an entry it becomes its clone there and on the stack, and the last
/// node is put into that one.
fn climb_one(
    alloc: Global,
    left: u8,
    id: NodeId,
    formats: &mut ActiveFormatting,
    next: &mut NodeId,
    reached: &mut Climb,
    ops: &mut Ops,
) -> Result<(), NoMemory>
    ensures { IfOk result
        (λ _. climb_at formats.new next.new ops.new reached.new.kept.items reached.new.last
        reached.new.bookmark
        ≡ climb_one left id
        (climb_at formats.old next.old ops.old reached.old.kept.items reached.old.last
        reached.old.bookmark)) }
{
    if left == 0 {
        take_entry_off(formats, id)?;
    }
    if let Some(tag) = tag_of(alloc, formats, id)? {
        let clone = take_id(next)?;
        renew_entry(alloc, formats, id, clone)?;
        let element = opened(clone, &tag)?;
        ops.push_make(clone, &tag.name, &tag.attributes)?;
        ops.push_put(reached.last, Place::Inside(clone))?;
        reached.kept.push(element)?;
        reached.last = clone;
        if reached.bookmark.is_none() {
            reached.bookmark = Some(clone);
        }
    }
    Ok(())
}

/// The elements one after another; from the fourth on they lose their entries.
pub fn climb_all(
    alloc: Global,
    elements: &[OpenElement],
    formats: &mut ActiveFormatting,
    next: &mut NodeId,
    reached: &mut Climb,
    ops: &mut Ops,
) -> Result<(), NoMemory>
    ensures { IfOk result
        (λ _. climb_at formats.new next.new ops.new reached.new.kept.items reached.new.last
        reached.new.bookmark
        ≡ climb 3 elements.now
        (climb_at formats.old next.old ops.old reached.old.kept.items reached.old.last
        reached.old.bookmark)) }
{
    let mut elements = elements;
    let mut left = KEPT;
    while let Some((element, rest)) = elements.split_first() {
        climb_one(alloc, left, element.id, formats, next, reached, ops)?;
        left = left.saturating_sub(1);
        elements = rest;
    }
    Ok(())
}

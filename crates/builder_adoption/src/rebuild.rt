//! A turn with a furthest block.

ghost use Rattle.std.specs.Prelude.{◌≡◌, ◌++◌, ◌∷◌, [], Some, None, IfOk};
ghost use Rattle.html_types.specs.declared.operation.Op.TheVariants as op;
ghost use Rattle.html_types.specs.declared.operation.Place.TheVariants.{Inside};
ghost use Rattle.standard.specs.Stack.{below, above};
ghost use Rattle.standard.specs.Adoption as definition;
ghost use Rattle.standard.specs.Adoption.{climb_at, climb, joined, turned, turn_with};
ghost use Rattle.standard.specs.Adoption.{put_at_bookmark};

use crate::climb::{Climb, climb_all};
use crate::entries::{insert_behind, renew_entry};
use crate::stack::{insert_below, place_above, put_back, take_below, take_through};
use builder_state::{opened, take_entry_off, take_id, take_off};
use html_types::{ActiveFormatting, FormattingEntry, NoMemory, NodeId, Op, Open, Place, Tag, Turn};
use std::alloc::Global;
use text_store::Ops;

/// Climbs over the elements between the furthest block and the formatting element, and leaves on
/// the stack what is left of them. Answers the node that was put last, and the bookmark.
fn climb_between(
    alloc: Global,
    state: &mut Open,
    element: NodeId,
    block: NodeId,
    ops: &mut Ops,
) -> Result<(NodeId, Option<NodeId>), NoMemory>
    ensures { IfOk result
        (λ r. let all : definition.Climb = climb 3 (below element (above block state.old.stack))
        (climb_at state.old.formats state.old.next ops.old [] block None) in
        (state.new
        ≡ record state.old {
          stack = joined element block state.old.stack all.kept;
          formats = all.formats;
          next = all.next;
        })
        × (ops.new ≡ all.ops) × (r.0 ≡ all.last) × (r.1 ≡ all.bookmark)) }
{
    let upper = take_through(alloc, &mut state.stack, block)?;
    let between = take_below(alloc, &mut state.stack, element)?;
    let mut climb = Climb {
        kept: Vec::new(alloc),
        last: block,
        bookmark: None,
    };
    climb_all(
        alloc,
        between.as_slice(),
        &mut state.formats,
        &mut state.next,
        &mut climb,
        ops,
    )?;
    let Climb {
        kept,
        last,
        bookmark,
    } = climb;
    put_back(&mut state.stack, kept)?;
    put_back(&mut state.stack, upper)?;
    Ok((last, bookmark))
}

/// Asks for a clone, which takes the children of the furthest block and stands in it.
fn make_clone(clone: NodeId, tag: &Tag, block: NodeId, ops: &mut Ops) -> Result<(), NoMemory>
    ensures { IfOk result
        (λ _. ops.new ≡ ops.old ++ op.Make clone tag.now.name tag.now.attributes ∷ []
        ++ op.MoveChildren block clone ∷ [] ++ op.Put clone (Inside block) ∷ []) }
{
    ops.push_make(clone, &tag.name, &tag.attributes)?;
    ops.push(Op::MoveChildren {
        from: block,
        to: clone,
    })?;
    ops.push_put(clone, Place::Inside(block))
}

/// The formatting element's entry is dropped, and the clone's is put at the bookmark.
fn mark_entry(
    alloc: Global,
    formats: &mut ActiveFormatting,
    element: NodeId,
    clone: NodeId,
    tag: Tag,
    bookmark: Option<NodeId>,
) -> Result<(), NoMemory>
    ensures { IfOk result
        (λ _. formats.new ≡ put_at_bookmark element clone tag bookmark formats.old) }
{
    match bookmark {
        None => renew_entry(alloc, formats, element, clone),
        Some(bookmark) => {
            insert_behind(
                alloc,
                formats,
                bookmark,
                FormattingEntry::Element { id: clone, tag },
            )?;
            take_entry_off(formats, element)
        }
    }
}

/// 13.2.6.4.7 #parsing-main-inbody steps 4.9 to 4.19: the elements between the formatting element
/// and the furthest block are rebuilt, and the formatting element's clone takes its place on the
/// stack just below the block.
pub fn rebuild(
    alloc: Global,
    state: &mut Open,
    element: NodeId,
    tag: Tag,
    block: NodeId,
    ops: &mut Ops,
) -> Result<Turn, NoMemory>
    ensures { IfOk result
        (λ t. turned state.new ops.new t
        ≡ turn_with element (Some tag) (Some block) state.old ops.old) }
{
    let (last, bookmark) = climb_between(alloc, state, element, block, ops)?;
    let place = place_above(&state.stack, state.foster, element);
    ops.push_put(last, place)?;
    let clone = take_id(&mut state.next)?;
    make_clone(clone, &tag, block, ops)?;
    let opened = opened(clone, &tag)?;
    take_off(&mut state.stack, element)?;
    insert_below(alloc, &mut state.stack, block, opened)?;
    mark_entry(alloc, &mut state.formats, element, clone, tag, bookmark)?;
    Ok(Turn::More)
}

//! Operations are executed on a document.

ghost use Rattle.std.specs.Prelude.{IfOk, IsTrue};
ghost use Rattle.standard.specs.Act.{is_bound};

use crate::nodes::attribute;
use html_types::{Attributes, Name, NoMemory, NodeId, Op, Place, Space};
use op_exec::{Doc, Put, ScriptKind};
use std::alloc::Global;
use text_store::Ops;

// A document with an element that stands nowhere yet, under the id.
#[tactic(auto, unfolding(standard::specs::Act::act, standard::specs::Act::acts, standard::specs::Act::AreOpsBound))]
fn made(alloc: Global, id: NodeId, name: Name, attributes: Attributes) -> Result<Doc, NoMemory>
    ensures { IfOk result (λ doc. IsTrue (is_bound doc.bound id)) }
{
    let mut doc = Doc::new(alloc)?;
    let mut ops = Ops::new(alloc);
    ops.push(Op::Make {
        id,
        name,
        attributes,
    })?;
    doc.apply_all(&ops)?;
    Ok(doc)
}

// The readings of a script, each alone.
fn is_still(doc: &Doc, id: NodeId) -> bool
    requires { IsTrue (is_bound doc.now.bound id) }
{
    doc.script_kind(id) == ScriptKind::Still
}

fn has_no_text(doc: &Doc, id: NodeId) -> Result<bool, NoMemory>
    requires { IsTrue (is_bound doc.now.bound id) }
{
    Ok(doc.script_text(id)?.is_empty())
}

fn has_no_src(doc: &Doc, id: NodeId) -> Result<bool, NoMemory>
    requires { IsTrue (is_bound doc.now.bound id) }
{
    Ok(doc.script_src(id)?.is_none())
}

#[tactic(auto, unfolding(standard::specs::Act::AreOpsBound))]
fn put(alloc: Global, doc: &mut Doc, node: NodeId) -> Result<(), NoMemory>
    requires { IsTrue (is_bound doc.old.bound node) }
{
    let mut ops = Ops::new(alloc);
    ops.push(Op::Put {
        node,
        place: Place::Page,
    })?;
    doc.apply_all(&ops)?;
    Ok(())
}

#[test]
fn a_script_that_stands_nowhere_is_still(rt: HostRuntime) -> Result<(), NoMemory> {
    let alloc = rt.alloc();
    let id = NodeId { realm: 1, n: 0 };
    let name = Name::of(alloc, "script")?;
    let doc = made(alloc, id, name, Attributes::new(alloc))?;
    assert!(rt; is_still(&doc, id));
    assert!(rt; has_no_text(&doc, id)?);
    assert!(rt; has_no_src(&doc, id)?);
    Ok(())
}

#[test]
fn a_template_has_contents(rt: HostRuntime) -> Result<(), NoMemory> {
    let alloc = rt.alloc();
    let id = NodeId { realm: 1, n: 0 };
    let name = Name::of(alloc, "template")?;
    let doc = made(alloc, id, name, Attributes::new(alloc))?;
    assert!(rt; doc.tree().len() == 3);
    assert_eq!(rt; doc.tree().contents(1), Some(2));
    Ok(())
}

#[test]
fn a_foreign_template_has_no_contents(rt: HostRuntime) -> Result<(), NoMemory> {
    let alloc = rt.alloc();
    let id = NodeId { realm: 1, n: 0 };
    let name = Name::other(alloc, Space::Svg, "template")?;
    let doc = made(alloc, id, name, Attributes::new(alloc))?;
    assert!(rt; doc.tree().len() == 2);
    assert_eq!(rt; doc.tree().contents(1), None);
    Ok(())
}

#[test]
fn an_element_does_not_move_into_itself(rt: HostRuntime) -> Result<(), NoMemory> {
    let alloc = rt.alloc();
    let id = NodeId { realm: 1, n: 0 };
    let name = Name::of(alloc, "div")?;
    let mut doc = made(alloc, id, name, attribute(alloc, "id", "a")?)?;
    put(alloc, &mut doc, id)?;
    let Some(found) = doc.find_id("a") else {
        return Err(NoMemory);
    };
    assert!(rt; doc.move_last(found, found)? == Put::Impossible);
    Ok(())
}

#[test]
#[tactic(auto, unfolding(standard::specs::Act::AreOpsBound))]
fn the_document_takes_no_text(rt: HostRuntime) -> Result<(), NoMemory> {
    let alloc = rt.alloc();
    let mut doc = Doc::new(alloc)?;
    let mut ops = Ops::new(alloc);
    ops.push_character(alloc, Place::Page, 'x')?;
    ops.push_character(alloc, Place::Page, 'y')?;
    doc.apply_all(&ops)?;
    assert_eq!(rt; doc.tree().len(), 1);
    Ok(())
}

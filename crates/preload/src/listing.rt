//! The scripts that a reply makes known.

ghost use Rattle.std.specs.Prelude.{◌≡◌, ◌||◌, [], ◌∷◌, map, flat_map, is_some, codes, true, IfOk};
ghost use Rattle.std.specs.Prelude.{IfSome, IfNone, OnOk};
ghost use Rattle.std.specs.Str.{chars};
ghost use Rattle.text_store.specs.Records.{seen_op};
ghost use Rattle.serial.specs.Scripts.{is_lawful};
ghost use Rattle.standard.specs.Tree.{attribute};
ghost use Rattle.standard.specs.Prepare.{has, may_run, prepared_with};
ghost use Rattle.preload.specs.Names.{wanted_by, wanted_in, wanted_of, is_listed, firsts, names_of};

use crate::name::ScriptName;
use core_steps::is_lawful;
use html_types::{NoMemory, Word};
use op_exec::is_javascript;
use speculation::{InForce, Reply};
use std::alloc::Global;
use text_store::{Listed, Ops, SeenName, SeenOp};

// Whether an attribute has that name.
fn has(attributes: &Listed<'_>, name: &str) -> bool
    ensures { result ≡ is_some (attribute (chars name.now) attributes.now) }
{
    attributes.value_of(name).is_some()
}

// Whether the `type` says JavaScript.
#[tactic(auto, using(std::proofs::lemmas::Grind::common_steps, op_exec::proofs::Literals::type_text))]
fn has_javascript_type(attributes: &Listed<'_>) -> bool
    ensures { result ≡ is_javascript (attribute (codes "type") attributes.now) }
{
    match attributes.value_of("type") {
        None => true,
        Some(text) => is_javascript(text),
    }
}

ghost use Rattle.standard.specs.Prepare.{is_javascript};

#[tactic(auto, using(std::proofs::lemmas::Grind::common_steps, op_exec::proofs::Literals::nomodule_text))]
fn may_run(attributes: &Listed<'_>) -> bool
    ensures { result ≡ may_run attributes.now }
{
    has_javascript_type(attributes) && !has(attributes, "nomodule")
}

// Whether the script would run later.
#[tactic(auto, using(std::proofs::lemmas::Grind::common_steps, op_exec::proofs::Literals::async_text, op_exec::proofs::Literals::defer_text))]
fn is_later(attributes: &Listed<'_>) -> bool
    ensures { result ≡ (has "async" attributes.now || has "defer" attributes.now) }
{
    has(attributes, "async") || has(attributes, "defer")
}

// The `src` of a script with these attributes, where it would be fetched.
#[tactic(auto, using(std::proofs::lemmas::Grind::common_steps, op_exec::proofs::Literals::src_text, crate::proofs::Naming::wanted_still, crate::proofs::Naming::wanted_later, crate::proofs::Naming::wanted_none, crate::proofs::Naming::wanted_lawful, crate::proofs::Naming::wanted_unlawful))]
fn wanted_src<'a>(attributes: &Listed<'a>) -> Option<&'a str>
    ensures some { IfSome result
        (λ src. wanted_by (prepared_with attributes.now []) ≡ chars src.now ∷
        []) }
    ensures lawful { IfSome result (λ src. is_lawful (chars src.now) ≡ true) }
    ensures none { IfNone result (wanted_by (prepared_with attributes.now []) ≡ []) }
{
    if !may_run(attributes) {
        return None;
    }
    if is_later(attributes) {
        return None;
    }
    let src = attributes.value_of("src")?;
    if is_lawful(src) { Some(src) } else { None }
}

// Whether the name is one of those.
fn is_listed(names: &[ScriptName], name: &str) -> bool
    ensures { result ≡ is_listed (chars name.now) names.now }
{
    for other in names {
        if other.is(name) {
            return true;
        }
    }
    false
}

// Adds the name, where it isn't one of those.
#[tactic(auto, using(std::proofs::lemmas::Grind::common_steps, crate::proofs::Naming::firsts_old, crate::proofs::Naming::firsts_new))]
fn add_name(alloc: Global, names: &mut Vec<ScriptName>, name: &str) -> Result<(), NoMemory>
    requires { is_lawful (chars name.now) ≡ true }
    ensures { OnOk result (names.new.items ≡ firsts names.old.items (chars name.now ∷ [])) }
{
    if is_listed(names, name) {
        return Ok(());
    }
    names.push(ScriptName::new(alloc, name)?)?;
    Ok(())
}

// Adds the name of a script with these attributes, where it would be fetched.
fn add_script(
    alloc: Global,
    names: &mut Vec<ScriptName>,
    attributes: &Listed<'_>,
) -> Result<(), NoMemory>
    ensures { OnOk result (names.new.items ≡ firsts names.old.items
        (wanted_by (prepared_with attributes.now []))) }
{
    match wanted_src(attributes) {
        None => Ok(()),
        Some(src) => add_name(alloc, names, src),
    }
}

// Adds the name of the script that the operation makes.
fn add_op(alloc: Global, names: &mut Vec<ScriptName>, op: SeenOp<'_>) -> Result<(), NoMemory>
    ensures { OnOk result
        (names.new.items ≡ firsts names.old.items (wanted_in (seen_op op.entry))) }
{
    match op {
        SeenOp::Make {
            name: SeenName::Known(Word::Script),
            attributes,
            ..
        } => add_script(alloc, names, &attributes),
        _ => Ok(()),
    }
}

// Adds the names of the scripts that these operations make.
#[tactic(auto, using(std::proofs::lemmas::Grind::common_steps, crate::proofs::Naming::firsts_append, crate::proofs::Naming::wanted_spelled))]
fn add_ops(alloc: Global, names: &mut Vec<ScriptName>, ops: &Ops) -> Result<(), NoMemory>
    ensures { OnOk result (names.new.items ≡ firsts names.old.items
        (flat_map wanted_in ops.now)) }
{
    let list = ops.read();
    let count = list.len();
    for index in 0..count {
        add_op(alloc, names, list.at(index))?;
    }
    Ok(())
}

/// The names of the scripts that a reply's operations make and that would be fetched, in order,
/// each once.
pub fn names<E: InForce>(alloc: Global, reply: &Reply<E>) -> Result<Vec<ScriptName>, NoMemory>
    ensures { IfOk result (λ names. names.items ≡ names_of reply.now.said.reply.batches) }
{
    let mut names = Vec::new(alloc);
    let batches = reply.said.batches();
    for k in 0..batches.len() {
        add_ops(alloc, &mut names, batches.at(k).ops())?;
    }
    Ok(names)
}

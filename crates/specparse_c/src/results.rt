//! What the calls come to, before it is laid into the caller's room.

ghost use Rattle.std.specs.Prelude.{◌≡◌, ◌==◌, ◌%◌, ◌/◌, Some, None, IfOk, IfErr, MatchOption};
ghost use Rattle.std.specs.Str.{chars, IsUtf8};
ghost use Rattle.specparse_c.specs.Entities.{begins_json, entities_in, ArePrepared};
ghost use Rattle.specparse_c.specs.Calls.{space_at, name_in, IsName, IsNameAt, IsNoName, IsContext};
ghost use Rattle.specparse_c.specs.Calls.{IsPage, HasDoc, HasTree, IsPageTree, IsPageText};
ghost use Rattle.specparse_c.specs.Calls.{IsFragmentTree, FailsAtTable, FailsAtContext};
ghost use Rattle.specparse_c.specs.Calls.{FailsAtText, FailsAtParse, FailsAtDeep, FailsAtPage};
ghost use Rattle.specparse_c.specs.Calls.{FailsAtFragment};

use crate::failure::Failure;
use entity_table::{Table, TableFault};
use html_document::{Flat, Fragment, parse, parse_fragment};
use html_types::{Context, Name, NoMemory, Space, Text};
use op_exec::Doc;
use std::alloc::Global;
use std::str::from_utf8;

/// A tree in flat lists, and the number of the node under which it stands.
#[derive(Drop)]
pub struct Rooted {
    pub flat: Flat,
    pub root: usize,
}

// Whether the bytes begin as JSON does, with white space or `{`.
fn begins_json(bytes: &[u8]) -> bool
    ensures { result ≡ begins_json bytes.now }
{
    match bytes.first() {
        Some(first) => matches!(*first, b'{' | b' ' | b'\n' | b'\r' | b'\t'),
        None => false,
    }
}

// The entities, of the JSON file or prepared.
#[tactic(auto, unfolding(crate::specs::Entities::entities_in))]
fn table_in(alloc: Global, entities: &[u8]) -> Result<Table, TableFault>
    ensures table { IfOk result (λ t. entities_in entities.now ≡ Some t) }
    ensures no_table { result ≡ Err TableFault.NotTable → entities_in entities.now ≡ None }
{
    if begins_json(entities) {
        Table::read(alloc, entities)
    } else {
        Table::load(alloc, entities)
    }
}

pub(crate) fn table_of(alloc: Global, entities: &[u8]) -> Result<Table, Failure>
    ensures table { IfOk result (λ t. entities_in entities.now ≡ Some t) }
    ensures failure { IfErr result (λ f. FailsAtTable entities.now f) }
{
    match table_in(alloc, entities) {
        Ok(table) => Ok(table),
        Err(fault) => Err(Failure::at(fault)),
    }
}

/// The entities, prepared.
pub fn entities(alloc: Global, entities: &[u8]) -> Result<Vec<u8>, Failure>
    ensures prepared { IfOk result (λ bytes. ArePrepared entities.now bytes.items) }
    ensures failure { IfErr result (λ f. FailsAtTable entities.now f) }
{
    let table = table_of(alloc, entities)?;
    let bytes = table.prepare(alloc)?;
    Ok(bytes)
}

fn parsed(alloc: Global, table: &Table, page: &[u8]) -> Result<Doc, Failure>
    ensures page { IfOk result (λ d. HasDoc table.now page.now d) }
    ensures failure { IfErr result (λ f. FailsAtParse table.now page.now f) }
{
    match parse(alloc, table, page) {
        Ok(doc) => Ok(doc),
        Err(refused) => Err(Failure::of(refused)),
    }
}

fn document_of(alloc: Global, entities: &[u8], page: &[u8]) -> Result<Doc, Failure>
    ensures page { IfOk result (λ d. IsPage entities.now page.now d) }
    ensures failure { IfErr result (λ f. FailsAtPage entities.now page.now f) }
{
    let table = table_of(alloc, entities)?;
    let doc = parsed(alloc, &table, page)?;
    Ok(doc)
}

/// A page's tree, under its Document.
pub fn page(alloc: Global, entities: &[u8], page: &[u8]) -> Result<Rooted, Failure>
    ensures page { IfOk result (λ r. IsPageTree entities.now page.now r) }
    ensures failure { IfErr result (λ f. FailsAtPage entities.now page.now f) }
{
    let doc = document_of(alloc, entities, page)?;
    let flat = Flat::of(alloc, doc.tree())?;
    Ok(Rooted { flat, root: 0 })
}

/// The text of a page's tree.
pub fn html(alloc: Global, entities: &[u8], page: &[u8]) -> Result<Text, Failure>
    ensures text { IfOk result (λ text. IsPageText entities.now page.now text) }
    ensures failure { IfErr result (λ f. FailsAtPage entities.now page.now f) }
{
    let doc = document_of(alloc, entities, page)?;
    let text = serialiser::document(alloc, doc.tree())?;
    Ok(text)
}

// The namespace of that number.
fn space_at(number: u32) -> Option<Space>
    ensures { result ≡ space_at number }
{
    if number == 0 {
        return Some(Space::Html);
    }
    if number == 1 {
        return Some(Space::MathMl);
    }
    if number == 2 {
        return Some(Space::Svg);
    }
    None
}

// The name of an element of that namespace.
fn name_in(alloc: Global, space: Space, name: &str) -> Result<Name, NoMemory>
    ensures { IfOk result (λ n. n ≡ name_in space (chars name.now)) }
{
    match space {
        Space::Html => Name::of(alloc, name),
        Space::MathMl => Name::other(alloc, Space::MathMl, name),
        Space::Svg => Name::other(alloc, Space::Svg, name),
    }
}

// The text of the bytes, where they are UTF-8.
pub(crate) fn text_in(bytes: &[u8]) -> Option<&str>
    ensures { MatchOption result (IsUtf8 bytes.now → ⊥)
        (λ text. (text.now ≡ bytes.now) × IsUtf8 bytes.now) }
{
    match from_utf8(bytes) {
        Ok(text) => Some(text),
        Err(_) => None,
    }
}

// The name of an element, where there is such a namespace.
fn name_at(alloc: Global, text: &str, space: u32) -> Result<Option<Name>, NoMemory>
    ensures { IfOk result (λ name. MatchOption name (space_at space ≡ None)
        (λ n. IsNameAt (chars text.now) space n)) }
{
    match space_at(space) {
        None => Ok(None),
        Some(at) => {
            let name = name_in(alloc, at, text)?;
            Ok(Some(name))
        }
    }
}

// The same of bytes, where they are UTF-8.
fn name_of(alloc: Global, name: &[u8], space: u32) -> Result<Option<Name>, NoMemory>
    ensures { IfOk result (λ n. MatchOption n (IsNoName name.now space)
        (λ n. IsName name.now space n)) }
{
    match text_in(name) {
        None => Ok(None),
        Some(text) => name_at(alloc, text, space),
    }
}

// What the flags say of the element of that name.
fn context_with(name: Name, flags: u32) -> Context
    ensures name { result.name ≡ name }
    ensures html_point { result.html_point ≡ ((flags % 2) == 1) }
    ensures form { result.form ≡ (((flags / 2) % 2) == 1) }
    ensures quirks { result.quirks ≡ ((flags / 4) == 1) }
{
    Context {
        name,
        html_point: flags % 2 == 1,
        form: flags / 2 % 2 == 1,
        quirks: flags / 4 == 1,
    }
}

// The context that the words of a call name.
fn context_of(alloc: Global, name: &[u8], space: u32, flags: u32) -> Result<Context, Failure>
    ensures context { IfOk result (λ c. IsContext name.now space flags c) }
    ensures failure { IfErr result (λ f. FailsAtContext name.now space flags f) }
{
    let unknown = flags > 7;
    if unknown {
        return Err(Failure::Context);
    }
    let named = name_of(alloc, name, space)?;
    match named {
        None => Err(Failure::Context),
        Some(name) => Ok(context_with(name, flags)),
    }
}

fn text_of(source: &[u8]) -> Result<&str, Failure>
    ensures text { IfOk result (λ text. (text.now ≡ source.now) × IsUtf8 source.now) }
    ensures failure { IfErr result (λ f. FailsAtText source.now f) }
{
    match text_in(source) {
        None => Err(Failure::BadUtf8),
        Some(text) => Ok(text),
    }
}

fn fragment_in(
    alloc: Global,
    table: &Table,
    context: Context,
    source: &str,
) -> Result<Fragment, Failure>
    ensures fragment { IfOk result (λ f. HasTree table.now context (chars source.now) f) }
    ensures failure { IfErr result (λ f. FailsAtDeep table.now context (chars source.now) f) }
{
    match parse_fragment(alloc, table, context, source) {
        Ok(fragment) => Ok(fragment),
        Err(refused) => Err(Failure::of(refused)),
    }
}

/// A fragment's tree, under its root.
pub fn fragment(
    alloc: Global,
    entities: &[u8],
    name: &[u8],
    space: u32,
    flags: u32,
    source: &[u8],
) -> Result<Rooted, Failure>
    ensures fragment { IfOk result (λ r.
        IsFragmentTree entities.now name.now space flags source.now r) }
    ensures failure { IfErr result (λ f.
        FailsAtFragment entities.now name.now space flags source.now f) }
{
    let context = context_of(alloc, name, space, flags)?;
    let table = table_of(alloc, entities)?;
    let text = text_of(source)?;
    let made = fragment_in(alloc, &table, context, text)?;
    let flat = Flat::of(alloc, made.doc.tree())?;
    Ok(Rooted {
        flat,
        root: made.root,
    })
}

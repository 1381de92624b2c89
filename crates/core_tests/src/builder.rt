//! Rows of instructions, and rules of some insertion modes.

use builder_state::{Builder, Pushed};
use char_class::is_space;
use html_types::{
    Attributes, Flow, Instr, Mode, Name, Next, NoMemory, NodeId, OpenElement, Place, Tag, Token,
    Word,
};
use insertion_modes::row;
use std::alloc::Global;
use std::test::Fail;
use text_store::Ops;

// The calls, each alone: what they promise would be worked out over the rows.
fn run(
    alloc: Global,
    builder: &mut Builder,
    row: &[Instr],
    token: &Token,
    ops: &mut Ops,
) -> Result<Flow, NoMemory> {
    builder.run(alloc, row, token, ops)
}

fn answer(
    alloc: Global,
    builder: &mut Builder,
    mode: Mode,
    token: &Token,
    ops: &mut Ops,
) -> Result<Next, NoMemory> {
    builder.answer_row(alloc, row(mode, token), token, ops)
}

fn reconstruct(alloc: Global, builder: &mut Builder, ops: &mut Ops) -> Result<Flow, NoMemory> {
    builder.reconstruct(alloc, ops)
}

fn push(builder: &mut Builder, element: OpenElement) -> Result<Pushed, NoMemory> {
    builder.push(element)
}

fn new_builder(alloc: Global, realm: u32) -> Builder {
    Builder::new(alloc, realm)
}

fn copy(alloc: Global, builder: &Builder) -> Result<Builder, NoMemory> {
    builder.copy(alloc)
}

fn renew(builder: &mut Builder, realm: u32) {
    builder.renew(realm);
}

fn same(builder: &Builder, other: &Builder) -> bool {
    builder.same(other)
}

fn take_skip(builder: &mut Builder) -> bool {
    builder.take_skip()
}

fn tag(alloc: Global, word: Word) -> Tag {
    Tag {
        name: Name::Known(word),
        attributes: Attributes::new(alloc),
        self_closing: false,
    }
}

#[test]
fn opens_elements(rt: HostRuntime) -> Result<(), Fail> {
    let alloc = rt.alloc();
    let mut builder = new_builder(alloc, 7);
    let mut ops = Ops::new(alloc);
    let token = Token::StartTag(tag(alloc, Word::Li));
    let row = [Instr::InsertRootA, Instr::Insert, Instr::SkipLineFeed];
    assert!(rt; matches!(run(alloc, &mut builder, &row, &token, &mut ops)?, Flow::On));
    assert!(rt; matches!(reconstruct(alloc, &mut builder, &mut ops)?, Flow::On));
    assert_eq!(rt; ops.stored(), 4);
    assert!(rt; builder.place() == Place::Inside(NodeId { realm: 7, n: 1 }));
    assert!(rt; builder.next_id() == NodeId { realm: 7, n: 2 });
    assert!(rt; builder.mode() == Mode::Initial);
    assert!(rt; take_skip(&mut builder));
    assert!(rt; !take_skip(&mut builder));
    Ok(())
}

#[test]
fn inserts_pending_text(rt: HostRuntime) -> Result<(), Fail> {
    let alloc = rt.alloc();
    let mut builder = new_builder(alloc, 7);
    let mut ops = Ops::new(alloc);
    let row = [
        Instr::InsertRootA,
        Instr::AppendPending,
        Instr::InsertPending,
    ];
    let token = Token::Character('x');
    assert!(rt; matches!(run(alloc, &mut builder, &row, &token, &mut ops)?, Flow::On));
    assert_eq!(rt; ops.stored(), 3);
    Ok(())
}

#[test]
fn copies_are_the_same(rt: HostRuntime) -> Result<(), Fail> {
    let alloc = rt.alloc();
    let builder = new_builder(alloc, 7);
    let mut copied = copy(alloc, &builder)?;
    renew(&mut copied, 8);
    assert!(rt; same(&copied, &builder));
    let id = copied.next_id();
    let name = Name::Known(Word::Html);
    let html = OpenElement {
        id,
        name,
        html_point: false,
    };
    assert!(rt; matches!(push(&mut copied, html)?, Pushed::Done));
    assert!(rt; !same(&copied, &builder));
    Ok(())
}

#[test]
fn a_carriage_return_is_white_space(rt: HostRuntime) -> Result<(), Fail> {
    assert!(rt; is_space('\r'));
    assert!(rt; !is_space('\u{b}'));
    Ok(())
}

#[test]
fn no_doctype(rt: HostRuntime) -> Result<(), Fail> {
    let alloc = rt.alloc();
    let mut builder = new_builder(alloc, 0);
    let mut ops = Ops::new(alloc);
    let token = Token::Character('a');
    let next = answer(alloc, &mut builder, Mode::Initial, &token, &mut ops)?;
    assert!(rt; matches!(next, Next::Reprocess));
    assert!(rt; builder.mode() == Mode::BeforeHtml);
    assert_eq!(rt; ops.stored(), 0);
    Ok(())
}

// `</p>` with no p open makes an empty one.
#[test]
fn a_lone_end_tag_of_p(rt: HostRuntime) -> Result<(), Fail> {
    let alloc = rt.alloc();
    let mut builder = new_builder(alloc, 0);
    let mut ops = Ops::new(alloc);
    let token = Token::EndTag(tag(alloc, Word::P));
    let next = answer(alloc, &mut builder, Mode::InBody, &token, &mut ops)?;
    assert!(rt; matches!(next, Next::Done));
    assert_eq!(rt; ops.stored(), 2);
    Ok(())
}

// White space in a table waits until something else comes.
#[test]
fn space_waits(rt: HostRuntime) -> Result<(), Fail> {
    let alloc = rt.alloc();
    let mut builder = new_builder(alloc, 0);
    let mut ops = Ops::new(alloc);
    let token = Token::Character(' ');
    let next = answer(alloc, &mut builder, Mode::InTableText, &token, &mut ops)?;
    assert!(rt; matches!(next, Next::Done));
    assert_eq!(rt; ops.stored(), 0);
    Ok(())
}

#[test]
fn frameset_ends(rt: HostRuntime) -> Result<(), Fail> {
    let alloc = rt.alloc();
    let mut builder = new_builder(alloc, 0);
    let mut ops = Ops::new(alloc);
    let token = Token::EndOfFile;
    let next = answer(alloc, &mut builder, Mode::InFrameset, &token, &mut ops)?;
    assert!(rt; matches!(next, Next::Finished));
    assert_eq!(rt; ops.stored(), 0);
    Ok(())
}

//! The library's calls for C: bytes in, a tree or its text out, into the caller's room. No call
//! keeps anything, so any thread may make one, and as many at once as one likes. Statuses are the
//! program's, and 13 says that a room is too small.
#![tactic(auto)]

ghost use Rattle.std.specs.Prelude.{◌≡◌, ◌≢◌, ◌∷◌, [], Contains};
ghost use Rattle.specparse_c.specs.Rooms.{no_sizes, Keeps, KeepsBytes, KeepsRun};
ghost use Rattle.specparse_c.specs.Runs.{PrintsAll, PrintsBad, PrintsLimit, LacksPrintRoom};
ghost use Rattle.specparse_c.specs.Runs.{AreNoWords};
ghost use Rattle.specparse_c.specs.Calls.{HasPage, HasText, HasFragment, LacksRoom, LacksTextRoom};
ghost use Rattle.specparse_c.specs.Calls.{LacksFragmentRoom, NoEntities, IsBadUtf8, IsLimit};
ghost use Rattle.specparse_c.specs.Calls.{IsNoText, IsDeep, IsNoContext, HasEntities};
ghost use Rattle.specparse_c.specs.Calls.{LacksEntitiesRoom};

mod failure;
mod results;
mod rooms;
mod running;

use html_document::{FlatAttribute, FlatNode};
pub use rooms::SpSizes;
use std::alloc::Global;

/// Prepares the list of entities, which every other call takes as this one does: as the JSON file,
/// or as the bytes that this call made of it, which are read in a small part of the time. They fill
/// the front of the room where that is large enough, and `needed` says how much of it; where it
/// isn't nothing is written, the status is 13, and `needed` says what is needed.
#[unsafe(no_mangle)]
pub extern "C" fn sp_entities(
    alloc: Global,
    entities: &[u8],
    room: &mut [u8],
    needed: &mut usize,
) -> u32
    ensures done { result ≡ 0 → HasEntities entities.now needed.new room.new }
    ensures no_room { result ≡ 13 → LacksEntitiesRoom entities.now needed.new room.old }
    ensures no_entities { result ≡ 3 → NoEntities entities.now }
    ensures statuses { Contains (0 ∷ 3 ∷ 12 ∷ 13 ∷ []) result }
    ensures nothing { result ≢ 0 → result ≢ 13 → needed.new ≡ 0 }
    ensures kept { KeepsBytes result needed.new room.old room.new }
{
    let prepared = results::entities(alloc, entities);
    rooms::give_prepared(prepared, room, needed)
}

/// Parses a page without its scripts. The tree fills the fronts of the three rooms where they are
/// large enough for it, and `sizes` says how much of them; where one isn't nothing is written to
/// any, the status is 13, and `sizes` says what is needed. Where there is no tree it says 0.
#[unsafe(no_mangle)]
pub extern "C" fn sp_parse(
    alloc: Global,
    entities: &[u8],
    page: &[u8],
    nodes: &mut [FlatNode],
    attributes: &mut [FlatAttribute],
    text: &mut [u8],
    sizes: &mut SpSizes,
) -> u32
    ensures done { result ≡ 0
        → HasPage entities.now page.now sizes.new nodes.new attributes.new text.new }
    ensures no_room { result ≡ 13
        → LacksRoom entities.now page.now sizes.new nodes.old attributes.old text.old }
    ensures no_entities { result ≡ 3 → NoEntities entities.now }
    ensures bad_utf8 { result ≡ 4 → IsBadUtf8 entities.now page.now }
    ensures limit { result ≡ 5 → IsLimit entities.now page.now }
    ensures statuses { Contains (0 ∷ 3 ∷ 4 ∷ 5 ∷ 12 ∷ 13 ∷ []) result }
    ensures no_tree { result ≢ 0 → result ≢ 13 → sizes.new ≡ no_sizes }
    ensures kept { Keeps result sizes.new nodes.old nodes.new attributes.old attributes.new
        text.old text.new }
{
    let tree = results::page(alloc, entities, page);
    rooms::give(tree, nodes, attributes, text, sizes)
}

/// The text of a page's tree (13.3 #serialising-html-fragments), parsed without its scripts.
#[unsafe(no_mangle)]
pub extern "C" fn sp_html(
    alloc: Global,
    entities: &[u8],
    page: &[u8],
    text: &mut [u8],
    needed: &mut usize,
) -> u32
    ensures done { result ≡ 0 → HasText entities.now page.now needed.new text.new }
    ensures no_room { result ≡ 13 → LacksTextRoom entities.now page.now needed.new text.old }
    ensures no_entities { result ≡ 3 → NoEntities entities.now }
    ensures bad_utf8 { result ≡ 4 → IsBadUtf8 entities.now page.now }
    ensures limit { result ≡ 5 → IsLimit entities.now page.now }
    ensures statuses { Contains (0 ∷ 3 ∷ 4 ∷ 5 ∷ 12 ∷ 13 ∷ []) result }
    ensures no_text { result ≢ 0 → result ≢ 13 → needed.new ≡ 0 }
    ensures kept { KeepsBytes result needed.new text.old text.new }
{
    let written = results::html(alloc, entities, page);
    rooms::give_text(written, text, needed)
}

/// Parses a text as the children of an element, its context (13.4 #parsing-html-fragments): `name`
/// and `space` are the element's (0 HTML, 1 MathML, 2 SVG), and `flags` is the sum of 1 where it is
/// an annotation-xml that is an HTML integration point, 2 where it is a form or stands in one, and
/// 4 where its document is in quirks mode. The fragment's nodes are the children of `sizes.root`.
#[unsafe(no_mangle)]
pub extern "C" fn sp_fragment(
    alloc: Global,
    entities: &[u8],
    name: &[u8],
    space: u32,
    flags: u32,
    source: &[u8],
    nodes: &mut [FlatNode],
    attributes: &mut [FlatAttribute],
    text: &mut [u8],
    sizes: &mut SpSizes,
) -> u32
    ensures done { result ≡ 0 → HasFragment entities.now name.now space flags source.now
        sizes.new nodes.new attributes.new text.new }
    ensures no_room { result ≡ 13 → LacksFragmentRoom entities.now name.now space flags source.now
        sizes.new nodes.old attributes.old text.old }
    ensures no_context { result ≡ 2 → IsNoContext name.now space flags }
    ensures no_entities { result ≡ 3 → NoEntities entities.now }
    ensures bad_utf8 { result ≡ 4 → IsNoText source.now }
    ensures limit { result ≡ 5 → IsDeep entities.now name.now space flags source.now }
    ensures statuses { Contains (0 ∷ 2 ∷ 3 ∷ 4 ∷ 5 ∷ 12 ∷ 13 ∷ []) result }
    ensures no_tree { result ≢ 0 → result ≢ 13 → sizes.new ≡ no_sizes }
    ensures kept { Keeps result sizes.new nodes.old nodes.new attributes.old attributes.new
        text.old text.new }
{
    let tree = results::fragment(alloc, entities, name, space, flags, source);
    rooms::give(tree, nodes, attributes, text, sizes)
}

/// Runs a page with its scripts, as the command does, and fills the front of `text` with what the
/// command prints: the lines of the scripts, and the tree's text, or its dump where `flags` is 1. A
/// script is a name and a text in `bytes`; of several of one name the last counts. Where the page
/// is refused, 4 or 5, what is printed up to there stands in the room.
#[unsafe(no_mangle)]
pub extern "C" fn sp_run(
    alloc: Global,
    entities: &[u8],
    page: &[u8],
    scripts: &[FlatAttribute],
    bytes: &[u8],
    flags: u32,
    text: &mut [u8],
    needed: &mut usize,
) -> u32
    ensures done { result ≡ 0 → PrintsAll entities.now page.now bytes.now scripts.now flags
        needed.new text.new }
    ensures bad_utf8 { result ≡ 4 → PrintsBad entities.now page.now bytes.now scripts.now flags
        needed.new text.new }
    ensures limit { result ≡ 5 → PrintsLimit entities.now page.now bytes.now scripts.now flags
        needed.new text.new }
    ensures no_room { result ≡ 13 → LacksPrintRoom entities.now page.now bytes.now scripts.now
        flags needed.new text.old }
    ensures no_words { result ≡ 2 → AreNoWords bytes.now scripts.now flags }
    ensures no_entities { result ≡ 3 → NoEntities entities.now }
    ensures statuses { Contains (0 ∷ 2 ∷ 3 ∷ 4 ∷ 5 ∷ 12 ∷ 13 ∷ []) result }
    ensures no_text { result ≢ 0 → result ≢ 4 → result ≢ 5 → result ≢ 13 → needed.new ≡ 0 }
    ensures kept { KeepsRun result needed.new text.old text.new }
{
    let printed = running::ran(alloc, entities, page, scripts, bytes, flags);
    rooms::give_run(printed, text, needed)
}

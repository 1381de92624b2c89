//! The caller's room.

ghost use Rattle.std.specs.Prelude.{◌≡◌, ◌≤◌, ◌++◌, length, drop};
ghost use Rattle.specparse_c.specs.Rooms.{sizes_of, no_sizes, lacks, Gives, GivesTree, GivesText};
ghost use Rattle.specparse_c.specs.Rooms.{GivesPrepared, GivesBytes, GivesPrinted, GivesRun};
ghost use Rattle.specparse_c.specs.Statuses.{status_told};

use crate::failure::Failure;
use crate::results::Rooted;
use html_document::{Flat, FlatAttribute, FlatNode};
use html_types::Text;
use memory_runner::Ran;
use page_turns::End;

/// How much room a tree takes: numbers of nodes and of attributes, and bytes of text. What was
/// parsed stands under the node `root`: a page's Document is 0.
#[repr(C)]
#[derive(Clone, Copy, Drop)]
pub struct SpSizes {
    pub nodes: usize,
    pub attributes: usize,
    pub text: usize,
    pub root: usize,
}

fn no_sizes() -> SpSizes
    ensures { result ≡ no_sizes }
{
    SpSizes {
        nodes: 0,
        attributes: 0,
        text: 0,
        root: 0,
    }
}

fn sizes_of(tree: &Rooted) -> SpSizes
    ensures { result ≡ sizes_of tree.now }
{
    let nodes = tree.flat.nodes.as_slice();
    let attributes = tree.flat.attributes.as_slice();
    let text = tree.flat.text.as_slice();
    SpSizes {
        nodes: nodes.len(),
        attributes: attributes.len(),
        text: text.len(),
        root: tree.root,
    }
}

// Whether some room is smaller than what is needed of it.
fn lacks(needed: &SpSizes, nodes: usize, attributes: usize, text: usize) -> bool
    ensures { result ≡ lacks needed.now nodes attributes text }
{
    nodes < needed.nodes || attributes < needed.attributes || text < needed.text
}

// Lays items into the front of a room.
fn fill<T: Copy>(room: &mut [T], items: &[T])
    requires { length items.now ≤ length room.old }
    ensures { room.new ≡ items.now ++ drop (length items.now) room.old }
{
    room[..items.len()].copy_from_slice(items);
}

// Lays a tree into rooms that are large enough.
fn lay(flat: &Flat, nodes: &mut [FlatNode], attributes: &mut [FlatAttribute], text: &mut [u8])
    requires nodes { length flat.now.nodes.items ≤ length nodes.old }
    requires attributes { length flat.now.attributes.items ≤ length attributes.old }
    requires text { length flat.now.text.items ≤ length text.old }
    ensures nodes { nodes.new
        ≡ flat.now.nodes.items ++ drop (length flat.now.nodes.items) nodes.old }
    ensures attributes { attributes.new
        ≡ flat.now.attributes.items ++ drop (length flat.now.attributes.items) attributes.old }
    ensures text { text.new ≡ flat.now.text.items ++ drop (length flat.now.text.items) text.old }
{
    fill(nodes, flat.nodes.as_slice());
    fill(attributes, flat.attributes.as_slice());
    fill(text, flat.text.as_slice());
}

// Lays a tree into the rooms where each is large enough, and says how much it takes.
fn give_tree(
    tree: &Rooted,
    nodes: &mut [FlatNode],
    attributes: &mut [FlatAttribute],
    text: &mut [u8],
    sizes: &mut SpSizes,
) -> u32
    ensures { GivesTree tree.now result sizes.new nodes.old nodes.new attributes.old attributes.new
        text.old text.new }
{
    let needed = sizes_of(tree);
    *sizes = needed;
    if lacks(&needed, nodes.len(), attributes.len(), text.len()) {
        return 13;
    }
    lay(&tree.flat, nodes, attributes, text);
    0
}

/// Lays a tree into the rooms where each is large enough, and says how much it takes; or why
/// there is none.
pub fn give(
    tree: Result<Rooted, Failure>,
    nodes: &mut [FlatNode],
    attributes: &mut [FlatAttribute],
    text: &mut [u8],
    sizes: &mut SpSizes,
) -> u32
    ensures { Gives tree result sizes.new nodes.old nodes.new attributes.old attributes.new
        text.old text.new }
{
    match tree {
        Ok(tree) => give_tree(&tree, nodes, attributes, text, sizes),
        Err(failure) => {
            *sizes = no_sizes();
            failure.status()
        }
    }
}

// Lays bytes into the room where that is large enough, and says how much they take.
fn give_bytes(bytes: &[u8], room: &mut [u8], needed: &mut usize) -> u32
    ensures { GivesBytes bytes.now result needed.new room.old room.new }
{
    *needed = bytes.len();
    let lacks = room.len() < bytes.len();
    if lacks {
        return 13;
    }
    fill(room, bytes);
    0
}

/// Lays a text into the room where that is large enough, and says how much it takes; or why there
/// is none.
pub fn give_text(written: Result<Text, Failure>, room: &mut [u8], needed: &mut usize) -> u32
    ensures { GivesText written result needed.new room.old room.new }
{
    match written {
        Ok(written) => give_bytes(written.as_str().as_bytes(), room, needed),
        Err(failure) => {
            *needed = 0;
            failure.status()
        }
    }
}

/// Lays prepared entities into the room where that is large enough, and says how much they take;
/// or why there are none.
pub fn give_prepared(prepared: Result<Vec<u8>, Failure>, room: &mut [u8], needed: &mut usize) -> u32
    ensures { GivesPrepared prepared result needed.new room.old room.new }
{
    match prepared {
        Ok(bytes) => give_bytes(bytes.as_slice(), room, needed),
        Err(failure) => {
            *needed = 0;
            failure.status()
        }
    }
}

fn told(outcome: End) -> u32
    ensures { result ≡ status_told outcome }
{
    match outcome {
        End::Finished => 0,
        End::Refused(why) => Failure::by(why).status(),
    }
}

/// Lays what was printed of a page into the room where that is large enough, and says how much it
/// takes; or why there is nothing.
pub fn give_run(ran: Result<Ran, Failure>, text: &mut [u8], needed: &mut usize) -> u32
    ensures { GivesRun ran result needed.new text.old text.new }
{
    match ran {
        Ok(ran) => give_printed(&ran, text, needed),
        Err(failure) => {
            *needed = 0;
            failure.status()
        }
    }
}

fn give_printed(ran: &Ran, text: &mut [u8], needed: &mut usize) -> u32
    ensures { GivesPrinted ran.now result needed.new text.old text.new }
{
    let bytes = ran.text.as_slice();
    *needed = bytes.len();
    let lacks = text.len() < bytes.len();
    if lacks {
        return 13;
    }
    fill(text, bytes);
    told(ran.outcome)
}

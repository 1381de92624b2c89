//! What the flat lists of a tree hold.

/// What stands where a node has no parent, no child, no sibling, no contents.
pub const NONE: u32 = u32::MAX;

/// Some of the items of a list: `length` of them, from number `start` on.
#[repr(C)]
#[derive(Clone, Copy, Drop)]
pub struct Span {
    pub start: u32,
    pub length: u32,
}

/// A node. Its number is its place in the list, and the Document is number 0.
#[repr(C)]
#[derive(Clone, Copy, Drop)]
pub struct FlatNode {
    /// 0 Document, 1 element, 2 text, 3 comment, 4 doctype, 5 a template's contents.
    pub kind: u32,
    /// Of an element: 0 HTML, 1 MathML, 2 SVG.
    pub space: u32,
    pub parent: u32,
    pub first_child: u32,
    pub last_child: u32,
    pub previous: u32,
    pub next: u32,
    /// Of a template, the node that holds its contents.
    pub contents: u32,
    /// Its attributes are these of the list of all.
    pub attributes: Span,
    /// The name of an element and of a doctype, the text of a text and of a comment: these bytes.
    pub text: Span,
}

/// An attribute: its name and its value are these bytes of the text.
#[repr(C)]
#[derive(Clone, Copy, Drop)]
pub struct FlatAttribute {
    pub name: Span,
    pub value: Span,
}

//! What the builder asks of the tree. It names elements by ids, which it gives out itself.

ghost use Rattle.std.specs.Prelude.{◌≡◌, ◌↔◌, ◌+◌, ◌<◌, ◌^◌, IsTrue};
ghost use Rattle.html_types.specs.Operations.{same_id, later, same_place};

use crate::attributes::Attributes;
use crate::name::Name;
use crate::text::Text;

/// The id of an element: the n-th of its realm.
#[derive(Clone, Copy, PartialEq, Eq, PartialOrd, Ord)]
pub struct NodeId {
    pub realm: u32,
    pub n: u32,
}

impl NodeId {
    /// The id that comes so many later in the realm.
    pub fn later(self, by: u32) -> NodeId
        requires { self.n + by < 2 ^ 32 }
        ensures { result ≡ later by self }
    {
        NodeId {
            realm: self.realm,
            n: self.n + by,
        }
    }

    /// Whether two ids are the same.
    pub fn same(self, other: NodeId) -> bool
        ensures value { result ≡ same_id self other }
        ensures exact { IsTrue result ↔ (self ≡ other) }
    {
        self.realm == other.realm && self.n == other.n
    }
}

/// Where a node goes. It is looked up when the operation is executed, on the tree as it is then.
#[derive(Clone, Copy, PartialEq, Eq)]
pub enum Place {
    /// The end of the Document.
    Page,
    /// The end of the element.
    Inside(NodeId),
    /// The end of the template's contents; of another element, its end.
    Contents(NodeId),
    /// Just before the table where it has a parent, else the end of the element above it in the
    /// stack.
    Foster { table: NodeId, above: NodeId },
}

impl Place {
    /// Whether two places are the same.
    pub fn same(self, other: Place) -> bool
        ensures value { result ≡ same_place self other }
        ensures exact { IsTrue result ↔ (self ≡ other) }
    {
        match (self, other) {
            (Place::Page, Place::Page) => true,
            (Place::Inside(a), Place::Inside(b)) => a.same(b),
            (Place::Contents(a), Place::Contents(b)) => a.same(b),
            (Place::Foster { table: a, above: b }, Place::Foster { table: c, above: d }) => {
                a.same(c) && b.same(d)
            }
            _ => false,
        }
    }
}

/// An operation.
#[derive(Drop)]
pub enum Op {
    /// Makes an element, which stands nowhere yet.
    Make {
        id: NodeId,
        name: Name,
        attributes: Attributes,
    },
    /// Puts an element at a place, from wherever it stands.
    Put {
        node: NodeId,
        place: Place,
    },
    /// Inserts text, which joins a Text node just before the place.
    Text {
        place: Place,
        text: Text,
    },
    /// Inserts a comment.
    Comment {
        place: Place,
        text: Text,
    },
    /// Appends a doctype to the Document.
    Doctype {
        name: Text,
    },
    /// Takes an element out of its parent.
    Detach {
        node: NodeId,
    },
    /// Moves the children of an element, in order, each to the end of another element's, or of its
    /// contents where that is a template; one that can't stand there stays where it is. What stands
    /// in a template's contents isn't among its children, and doesn't move.
    MoveChildren {
        from: NodeId,
        to: NodeId,
    },
    /// Gives an element those attributes that it lacks.
    AddAttributes {
        node: NodeId,
        attributes: Attributes,
    },
}

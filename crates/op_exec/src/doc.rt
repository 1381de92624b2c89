//! A tree and the ids of its elements.

ghost use Rattle.std.specs.Prelude.{◌≡◌, ◌≢◌, ◌<◌, length, IsTrue, IsSome, OnOk, OnErr, IfOk, Some};
ghost use Rattle.std.specs.Prelude.{None, true, false, if◌then◌else◌};
ghost use Rattle.std.specs.Option.{ForSome};
ghost use Rattle.html_types.specs.declared.operation.Op.TheVariants as op;
ghost use Rattle.doc_tree.specs.declared.tree.Put.TheVariants as put;

use crate::bound::Bound;
use crate::fragment::{context_of, fragment_ops};
use crate::script::{ScriptKind, kind_of_script};
use doc_tree::{Put, Tree};
use html_types::{Attributes, Context, Kind, NoMemory, NodeId, Place, Text};
use std::alloc::Global;
use std::marker::Model;
use std::mem;
use text_store::{Listed, Ops, SeenName, SeenOp};

/// A tree and what ids name in it: a contract sees both.
#[derive(Drop)]
pub struct Doc {
    alloc: Global,
    tree: Tree,
    bound: Bound,
}

impl Model for Doc {
    ghost use Rattle.standard.specs.Act.{Doc as State};

    ghost Value = { State };

    ghost use Rattle.op_exec.specs.Docs.{IsDoc};

    ghost view = { λ d. record { tree = d.tree; bound = d.bound } };

    ghost invariant = { λ d. IsDoc d.tree d.bound };
}

// Among the children of a node, just before one of them or at their end.
#[derive(Clone, Copy)]
struct Spot {
    parent: usize,
    before: Option<usize>,
}

ghost use Rattle.standard.specs.Tree.{IsTree, parent_of};
ghost use Rattle.standard.specs.Act.{end_of, foster_spot};

// The end of a node; of a template, the end of its contents.
fn end_of(tree: &Tree, node: usize) -> Spot
    requires { node < length tree.now }
    ensures parent { result.parent ≡ (end_of tree.now node).parent }
    ensures before { result.before ≡ None }
    ensures here { result.parent < length tree.now }
    ensures tree { IsTree tree.now }
{
    Spot {
        parent: tree.contents(node).unwrap_or(node),
        before: None,
    }
}

// Just before the table where it has a parent, else the end of the element above it in the stack.
fn foster_spot(tree: &Tree, table: usize, above: usize) -> Spot
    requires table_here { table < length tree.now }
    requires above_here { above < length tree.now }
    ensures parent { result.parent
        ≡ (foster_spot tree.now table above (parent_of tree.now table)).parent }
    ensures before { result.before
        ≡ (foster_spot tree.now table above (parent_of tree.now table)).before }
    ensures here { result.parent < length tree.now }
    ensures tree { IsTree tree.now }
    ensures child { ForSome result.before
        (λ b. (b < length tree.now) × (parent_of tree.now b ≡ Some result.parent)) }
{
    match tree.parent(table) {
        None => end_of(tree, above),
        Some(parent) => match tree.contents(parent) {
            None => Spot {
                parent,
                before: Some(table),
            },
            Some(contents) => Spot {
                parent: contents,
                before: None,
            },
        },
    }
}

ghost use Rattle.op_exec.specs.Docs.{inserts_nothing};
ghost use Rattle.std.specs.Prelude.{◌↔◌, []};
ghost use Rattle.std.specs.Str.{chars};
ghost use Rattle.text_store.specs.Records.{seen_op};
ghost use Rattle.text_store.specs.Views.{seen_name};

// Whether a text has no characters.
fn is_empty(text: &str) -> bool
    ensures { IsTrue result ↔ (chars text.now ≡ []) }
{
    text.is_empty()
}

// Whether it inserts an empty text.
fn inserts_nothing(op: &SeenOp<'_>) -> bool
    ensures { result ≡ inserts_nothing (seen_op op.now) }
{
    match op {
        SeenOp::Text { text, .. } => is_empty(*text),
        _ => false,
    }
}

impl Doc {
    ghost use Rattle.html_types.specs.Operations.{spelled_one};
    ghost use Rattle.standard.specs.Tree.{host_of};
    ghost use Rattle.standard.specs.Act.{new_doc, act, acts, bound_to, node_of, is_bound, spot_of};
    ghost use Rattle.standard.specs.Act.{text_at, IsPlaceBound, IsOpBound, AreOpsBound};
    ghost use Rattle.act_laws.specs.Bindings.{IsOneToOne};
    ghost use Rattle.op_exec.specs.Docs.{IsDoneInPart};

    /// The Document alone, with no id bound.
    pub fn new(alloc: Global) -> Result<Doc, NoMemory>
        ensures { IfOk result (λ d. d ≡ new_doc) }
    {
        let tree = Tree::new(alloc)?;
        Ok(Doc {
            alloc,
            tree,
            bound: Bound::new(alloc),
        })
    }

    /// The tree.
    pub fn tree(&self) -> &Tree
        ensures { result.now ≡ self.now.tree }
    {
        &self.tree
    }

    /// The node that an id stands for.
    pub fn node(&self, id: NodeId) -> usize
        requires { IsTrue (is_bound self.now.bound id) }
        ensures node { result ≡ node_of self.now.bound id }
        ensures here { result < length self.now.tree }
        ensures not_document { result ≢ 0 }
        ensures no_contents { host_of self.now.tree result ≡ None }
    {
        self.bound.get(id)
    }

    /// Whether the id stands for a node.
    pub fn has(&self, id: NodeId) -> bool
        ensures { result ≡ is_bound self.now.bound id }
    {
        self.bound.has(id)
    }

    /// No two ids stand for one node.
    pub fn ids_are_one_to_one(&self)
        ensures { IsOneToOne self.now.bound }
    {
        // A struct's invariant is known where a field is looked at.
        let _bound = &self.bound;
    }

    // Where a place lies on the tree as it is now.
    fn spot(&self, place: Place) -> Spot
        requires { IsPlaceBound (is_bound self.now.bound) place }
        ensures parent { result.parent ≡ (spot_of self.now place).parent }
        ensures before { result.before ≡ (spot_of self.now place).before }
        ensures here { result.parent < length self.now.tree }
        ensures tree { IsTree self.now.tree }
        ensures child { ForSome result.before
            (λ b. (b < length self.now.tree) × (parent_of self.now.tree b ≡ Some result.parent)) }
    {
        match place {
            Place::Page => end_of(&self.tree, 0),
            Place::Inside(id) => end_of(&self.tree, self.node(id)),
            Place::Contents(id) => end_of(&self.tree, self.node(id)),
            Place::Foster { table, above } => foster_spot(
                &self.tree,
                self.node(table),
                self.node(above),
            ),
        }
    }

    #[tactic(auto, unfolding(standard::specs::Act::act))]
    fn make(
        &mut self,
        id: NodeId,
        name: SeenName<'_>,
        attributes: &Listed<'_>,
    ) -> Result<(), NoMemory>
        requires { is_bound self.old.bound id ≡ false }
        ensures ok { OnOk result
            (self.new ≡ act self.old (op.Make id (seen_name name.entry) attributes.now)) }
        ensures err { OnErr result (self.new ≡ self.old) }
    {
        self.bound.make(id, &mut self.tree, name, attributes)
    }

    #[tactic(auto, unfolding(standard::specs::Act::act))]
    fn put(&mut self, id: NodeId, place: Place) -> Result<(), NoMemory>
        requires bound { IsTrue (is_bound self.old.bound id) }
        requires place_bound { IsPlaceBound (is_bound self.old.bound) place }
        ensures ok { OnOk result (self.new ≡ act self.old (op.Put id place)) }
        ensures err { OnErr result (self.new ≡ self.old) }
    {
        let node = self.node(id);
        let spot = self.spot(place);
        match spot.before {
            None => self.tree.put_last(node, spot.parent)?,
            Some(before) => self.tree.put_before(node, before)?,
        };
        Ok(())
    }

    fn text(&mut self, place: Place, text: &str) -> Result<(), NoMemory>
        requires { IsPlaceBound (is_bound self.old.bound) place }
        ensures ok { OnOk result
            (self.new ≡ acts self.old (spelled_one (op.Text place (chars text.now)))) }
        ensures err { OnErr result (self.new ≡ self.old) }
    {
        let spot = self.spot(place);
        self.tree.add_text(spot.parent, spot.before, text)?;
        Ok(())
    }

    // A comment, which it takes.
    #[tactic(auto, unfolding(standard::specs::Act::act))]
    fn own_note(&mut self, place: Place, text: Text) -> Result<(), NoMemory>
        requires { IsPlaceBound (is_bound self.old.bound) place }
        ensures ok { OnOk result (self.new ≡ act self.old (op.Comment place text)) }
        ensures err { OnErr result (self.new ≡ self.old) }
    {
        let spot = self.spot(place);
        self.tree.add(spot.parent, spot.before, Kind::Comment(text))
    }

    fn note(&mut self, place: Place, text: &str) -> Result<(), NoMemory>
        requires { IsPlaceBound (is_bound self.old.bound) place }
        ensures ok { OnOk result (self.new ≡ act self.old (op.Comment place (chars text.now))) }
        ensures err { OnErr result (self.new ≡ self.old) }
    {
        let own = Text::from_str(self.alloc, text)?;
        self.own_note(place, own)
    }

    // A doctype, whose name it takes.
    #[tactic(auto, unfolding(standard::specs::Act::act))]
    fn own_doctype(&mut self, name: Text) -> Result<(), NoMemory>
        ensures ok { OnOk result (self.new ≡ act self.old (op.Doctype name)) }
        ensures err { OnErr result (self.new ≡ self.old) }
    {
        let spot = end_of(&self.tree, 0);
        self.tree.add(spot.parent, spot.before, Kind::Doctype(name))
    }

    fn doctype(&mut self, name: &str) -> Result<(), NoMemory>
        ensures ok { OnOk result (self.new ≡ act self.old (op.Doctype (chars name.now))) }
        ensures err { OnErr result (self.new ≡ self.old) }
    {
        let own = Text::from_str(self.alloc, name)?;
        self.own_doctype(own)
    }

    #[tactic(auto, unfolding(standard::specs::Act::act))]
    fn detach(&mut self, id: NodeId)
        requires { IsTrue (is_bound self.old.bound id) }
        ensures { self.new ≡ act self.old (op.Detach id) }
    {
        let node = self.node(id);
        self.tree.detach(node);
    }

    #[tactic(auto, unfolding(standard::specs::Act::act))]
    fn move_children(&mut self, from: NodeId, to: NodeId) -> Result<(), NoMemory>
        requires from_bound { IsTrue (is_bound self.old.bound from) }
        requires to_bound { IsTrue (is_bound self.old.bound to) }
        ensures ok { OnOk result (self.new ≡ act self.old (op.MoveChildren from to)) }
        ensures err { OnErr result (self.new ≡ self.old) }
    {
        let from = self.node(from);
        let spot = end_of(&self.tree, self.node(to));
        self.tree.move_children(from, spot.parent)
    }

    #[tactic(auto, unfolding(standard::specs::Act::act))]
    fn add_own(&mut self, id: NodeId, attributes: &Attributes) -> Result<(), NoMemory>
        requires { IsTrue (is_bound self.old.bound id) }
        ensures ok { OnOk result (self.new ≡ act self.old (op.AddAttributes id attributes.now)) }
        ensures err { OnErr result (self.new ≡ self.old) }
    {
        let node = self.node(id);
        self.tree.add_attributes(node, attributes)
    }

    fn add_attributes(&mut self, id: NodeId, attributes: &Listed<'_>) -> Result<(), NoMemory>
        requires { IsTrue (is_bound self.old.bound id) }
        ensures ok { OnOk result (self.new ≡ act self.old (op.AddAttributes id attributes.now)) }
        ensures err { OnErr result (self.new ≡ self.old) }
    {
        let own = attributes.to_attributes(self.alloc)?;
        self.add_own(id, &own)
    }

    /// Does the operation on the tree as it is now; where it inserts text, the insertions of its
    /// characters one by one.
    // In place of a call: `op` is then taken apart where it is read, and never laid into memory.
    #[inline(always)]
    #[tactic(auto, unfolding(standard::specs::Act::acts))]
    pub fn apply(&mut self, op: SeenOp<'_>) -> Result<(), NoMemory>
        requires { IsOpBound (is_bound self.old.bound) (seen_op op) }
        ensures ok { OnOk result (self.new ≡ acts self.old (spelled_one (seen_op op.entry))) }
        ensures err { OnErr result (self.new ≡ self.old) }
    {
        match op {
            SeenOp::Make {
                id,
                name,
                attributes,
            } => self.make(id, name, &attributes),
            SeenOp::Put { node, place } => self.put(node, place),
            SeenOp::Text { place, text } => self.text(place, text),
            SeenOp::Comment { place, text } => self.note(place, text),
            SeenOp::Doctype { name } => self.doctype(name),
            SeenOp::Detach { node } => {
                self.detach(node);
                Ok(())
            }
            SeenOp::MoveChildren { from, to } => self.move_children(from, to),
            SeenOp::AddAttributes { node, attributes } => self.add_attributes(node, &attributes),
        }
    }

    // Does the operation, unless it inserts an empty text: then nothing is asked of its place.
    #[inline(always)]
    fn apply_spelled(&mut self, op: SeenOp<'_>) -> Result<(), NoMemory>
        requires { AreOpsBound (is_bound self.old.bound) (spelled_one (seen_op op)) }
        ensures ok { OnOk result (self.new ≡ acts self.old (spelled_one (seen_op op.entry))) }
        ensures err { OnErr result (self.new ≡ self.old) }
    {
        if inserts_nothing(&op) {
            return Ok(());
        }
        self.apply(op)
    }

    /// Does the operations in order. Where memory runs out, the first of them are done, and no
    /// other.
    pub fn apply_all(&mut self, ops: &Ops) -> Result<(), NoMemory>
        requires { AreOpsBound (is_bound self.old.bound) ops.now }
        ensures ok { OnOk result (self.new ≡ acts self.old ops.now) }
        ensures err { OnErr result (IsDoneInPart self.old self.new ops.now) }
    {
        let list = ops.read();
        let count = list.len();
        for index in 0..count {
            self.apply_spelled(list.at(index))?;
        }
        Ok(())
    }
}

// What a script asks for.
impl Doc {
    ghost use Rattle.standard.specs.Tree.{detached, moved, lies_in, is_element_at, find_id};
    ghost use Rattle.standard.specs.Tree.{first_element};

    /// The Document's element.
    pub fn root(&self) -> Option<usize>
        ensures root { result ≡ first_element self.now.tree }
        ensures here { ForSome result (λ n. n < length self.now.tree) }
    {
        self.tree.first_element()
    }

    /// The first element of the Document, in tree order, with that `id`. An empty one finds
    /// nothing.
    pub fn find_id(&self, id: &str) -> Option<usize>
        ensures found { result ≡ find_id self.now.tree (chars id.now) }
        ensures here { ForSome result (λ k. k < length self.now.tree) }
        ensures element { ForSome result (λ k. is_element_at self.now.tree k ≡ true) }
    {
        self.tree.find_id(id)
    }

    /// Takes a node out of its parent. What ids stand for stays.
    pub fn remove(&mut self, node: usize)
        requires { node < length self.old.tree }
        ensures { self.new ≡ record self.old { tree = detached self.old.tree node } }
    {
        self.tree.detach(node);
    }

    /// Puts the second element at the end of the first one's children, from wherever it stands; a
    /// template's are its own, not its contents'. Impossible, and then nothing changes, exactly
    /// where the second is the first or the first stands under it. Texts that come to stand side by
    /// side aren't joined, and what ids stand for stays.
    pub fn move_last(&mut self, first: usize, second: usize) -> Result<Put, NoMemory>
        requires first_element { is_element_at self.old.tree first ≡ true }
        requires second_element { is_element_at self.old.tree second ≡ true }
        ensures answer { IfOk result
            (λ answer. answer
            ≡ (if lies_in self.old.tree first second then put.Impossible else put.Done)) }
        ensures ok { OnOk result
            (self.new
            ≡ record self.old {
              tree =
                  (if lies_in self.old.tree first second then self.old.tree else moved self.old.tree
                  second first None);
            }) }
        ensures err { OnErr result (self.new ≡ self.old) }
    {
        self.tree.put_last(second, first)
    }
}

// Fragments (13.4 #parsing-html-fragments).
impl Doc {
    ghost use Rattle.act_laws.specs.Staying.{Stays};
    ghost use Rattle.standard.specs.Tree.{new_tree};
    ghost use Rattle.standard.specs.Act.{node_of, is_bound, AreOpsBound};
    ghost use Rattle.standard.specs.Fragment.{context_at, with_fragment, exchanged, filled};
    ghost use Rattle.standard.specs.Fragment.{root_id};

    /// What the parse of a fragment asks of that node as its context, in a document that is in
    /// quirks mode or not. Its way up is walked.
    pub fn context_of(&self, node: usize, quirks: bool) -> Result<Context, NoMemory>
        requires { node < length self.now.tree }
        ensures { IfOk result (λ context. context ≡ context_at self.now.tree node quirks) }
    {
        context_of(&self.tree, node, quirks)
    }

    // The node's children are taken out (a template's: its contents' children), and the root's are
    // put there.
    fn exchange(&mut self, target: usize) -> Result<(), NoMemory>
        requires root { IsTrue (is_bound self.old.bound (root_id 0)) }
        requires here { target < length self.old.tree }
        ensures ok { OnOk result (self.new ≡ record self.old { tree = exchanged self.old target }) }
        ensures stays { Stays self.old.tree self.new.tree }
    {
        let from = self.node(NodeId { realm: 0, n: 0 });
        let to = end_of(&self.tree, target).parent;
        self.tree.take_children(to);
        self.tree.move_children(from, to)
    }

    // With no id bound: the fragment's nodes under ids of their own.
    fn make_fragment(&mut self, form: bool, ops: &Ops) -> Result<(), NoMemory>
        requires none { self.old.bound ≡ [] }
        requires bound { AreOpsBound (is_bound (with_fragment self.old.tree form []).bound)
            ops.now }
        ensures ok { OnOk result (self.new ≡ with_fragment self.old.tree form ops.now) }
        ensures root { OnOk result (IsTrue (is_bound self.new.bound (root_id 0))) }
        ensures stays { Stays self.old.tree self.new.tree }
    {
        let all = fragment_ops(self.alloc, form, ops)?;
        self.apply_all(&all)?;
        Ok(())
    }

    // With no id bound: the fragment's nodes under ids of their own, and then the exchange.
    fn fill_with(&mut self, target: usize, form: bool, ops: &Ops) -> Result<(), NoMemory>
        requires none { self.old.bound ≡ [] }
        requires here { target < length self.old.tree }
        requires bound { AreOpsBound (is_bound (with_fragment self.old.tree form []).bound)
            ops.now }
        ensures ok { OnOk result (self.new.tree ≡ filled self.old.tree target form ops.now) }
        ensures stays { Stays self.old.tree self.new.tree }
    {
        self.make_fragment(form, ops)?;
        self.exchange(target)
    }

    /// Takes an element's children out (a template's: its contents' children), and puts there
    /// what those operations make under the root of a fragment. They name the fragment's elements
    /// by ids of its own, of realm 0, of which none is bound behind it; what ids stand for stays.
    /// Also where memory runs out the nodes that there were keep their numbers; some may be new.
    pub fn fill(&mut self, target: usize, form: bool, ops: &Ops) -> Result<(), NoMemory>
        requires here { target < length self.old.tree }
        requires bound { AreOpsBound (is_bound (with_fragment self.old.tree form []).bound)
            ops.now }
        ensures ok { OnOk result
            (self.new ≡ record self.old { tree = filled self.old.tree target form ops.now }) }
        ensures bound { self.new.bound ≡ self.old.bound }
        ensures stays { Stays self.old.tree self.new.tree }
    {
        let bound = mem::replace(&mut self.bound, Bound::new(self.alloc));
        let filled = self.fill_with(target, form, ops);
        self.bound = bound;
        filled
    }

    /// A document of a fragment's own: those operations executed under its root, an html element,
    /// whose number it says too. The root stands nowhere, and its children are the fragment's
    /// nodes.
    pub fn of_fragment(alloc: Global, form: bool, ops: Ops) -> Result<(Doc, usize), NoMemory>
        requires { AreOpsBound (is_bound (with_fragment new_tree form []).bound) ops }
        ensures made { IfOk result (λ made. made.0 ≡ with_fragment new_tree form ops) }
        ensures root { IfOk result (λ made. made.1 ≡ node_of made.0.bound (root_id 0)) }
        ensures here { IfOk result (λ made. made.1 < length made.0.tree) }
    {
        let mut doc = Doc::new(alloc)?;
        doc.make_fragment(form, &ops)?;
        let root = doc.node(NodeId { realm: 0, n: 0 });
        Ok((doc, root))
    }
}

// Scripts.
impl Doc {
    ghost use Rattle.std.specs.Option.{option_map};
    ghost use Rattle.std.specs.Prelude.{codes};
    ghost use Rattle.standard.specs.Tree.{kind_of, attributes_of, attribute, script_text};
    ghost use Rattle.standard.specs.Act.{node_of, is_bound};
    ghost use Rattle.standard.specs.Prepare.{prepare};
    ghost use Rattle.op_exec.specs.Scripts.{script_kind};

    /// How the script runs that the id stands for, on the tree as it is now.
    pub fn script_kind(&self, id: NodeId) -> ScriptKind
        requires { IsTrue (is_bound self.now.bound id) }
        ensures { result ≡ script_kind (prepare self.now.tree (node_of self.now.bound id)) }
    {
        kind_of_script(&self.tree, self.node(id))
    }

    /// The script's text: the texts of its Text children, joined.
    pub fn script_text(&self, id: NodeId) -> Result<Text, NoMemory>
        requires { IsTrue (is_bound self.now.bound id) }
        ensures { IfOk result
            (λ text. text ≡ script_text self.now.tree (node_of self.now.bound id)) }
    {
        self.tree.child_text(self.node(id))
    }

    /// The script's `src`.
    #[tactic(auto, using(std::proofs::lemmas::Grind::common_steps, crate::proofs::Literals::src_text))]
    pub fn script_src(&self, id: NodeId) -> Result<Option<Text>, NoMemory>
        requires { IsTrue (is_bound self.now.bound id) }
        ensures { IfOk result
            (λ src. src
            ≡ attribute (codes "src")
            (attributes_of (kind_of self.now.tree (node_of self.now.bound id)))) }
    {
        match self.tree.attribute(self.node(id), "src") {
            None => Ok(None),
            Some(src) => Ok(Some(Text::from_str(self.alloc, src)?)),
        }
    }
}

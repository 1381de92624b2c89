//! What a document did, kept where someone wants to do it too.

ghost use Rattle.std.specs.Prelude.{◌≡◌, ◌∷◌, [], OnOk};
ghost use Rattle.doc_changes.specs.declared.change.Change.TheVariants as change;

use crate::change::Change;
use crate::new_nodes::Fragment;
use html_types::NoMemory;
use op_exec::{Doc, Put};
use std::alloc::Global;
use std::marker::Model;
use std::mem;
use text_store::Ops;

/// The changes of a document, in order; none where nobody wants them. Nothing is copied: a batch
/// and a fragment are moved here behind what the document did by them.
#[derive(Drop)]
pub struct Log {
    alloc: Global,
    on: bool,
    list: Vec<Change>,
}

impl Model for Log {
    ghost use Rattle.doc_changes.specs.Logs.{LogView};

    ghost Value = { LogView };

    ghost view = { λ l. record { on = l.on; list = l.list.items } };
}

impl Log {
    ghost use Rattle.doc_changes.specs.Logs.{with_more};

    /// With no changes.
    pub fn new(alloc: Global, on: bool) -> Log
        ensures { result ≡ record { on = on; list = [] } }
    {
        Log {
            alloc,
            on,
            list: Vec::new(alloc),
        }
    }

    /// Takes the changes.
    pub fn take(&mut self) -> Vec<Change>
        ensures taken { result.items ≡ self.old.list }
        ensures left { self.new ≡ record self.old { list = [] } }
    {
        mem::replace(&mut self.list, Vec::new(self.alloc))
    }

    // Adds the change, where they are kept.
    fn add(&mut self, change: Change) -> Result<(), NoMemory>
        ensures { OnOk result (self.new ≡ with_more (change ∷ []) self.old) }
    {
        if !self.on {
            return Ok(());
        }
        self.list.push(change)?;
        Ok(())
    }
}

// What a document does while the log is kept.
impl Log {
    ghost use Rattle.std.specs.Prelude.{◌<◌, length, true, if◌then◌else◌, IfOk, None};
    ghost use Rattle.doc_tree.specs.declared.tree.Put.TheVariants as put;
    ghost use Rattle.standard.specs.Tree.{detached, moved, lies_in, is_element_at};
    ghost use Rattle.standard.specs.Act.{acts, is_bound, AreOpsBound};
    ghost use Rattle.standard.specs.Fragment.{filled};
    ghost use Rattle.doc_changes.specs.Logs.{with_more, Logs};

    /// The document does the operations in order, as `Doc::apply_all` does.
    pub fn apply_all(&mut self, doc: &mut Doc, ops: Ops) -> Result<(), NoMemory>
        requires { AreOpsBound (is_bound doc.old.bound) ops }
        ensures ok { OnOk result (doc.new ≡ acts doc.old ops) }
        ensures adds { OnOk result (self.new ≡ with_more (change.Did ops ∷ []) self.old) }
        ensures logged { OnOk result (Logs self.old doc.old self.new doc.new) }
    {
        doc.apply_all(&ops)?;
        self.add(Change::Did(ops))
    }

    /// It takes a node out of its parent, as `Doc::remove` does.
    pub fn remove(&mut self, doc: &mut Doc, node: usize) -> Result<(), NoMemory>
        requires { node < length doc.old.tree }
        ensures ok { doc.new ≡ record doc.old { tree = detached doc.old.tree node } }
        ensures adds { OnOk result (self.new ≡ with_more (change.Removed node ∷ []) self.old) }
        ensures logged { OnOk result (Logs self.old doc.old self.new doc.new) }
    {
        doc.remove(node);
        self.add(Change::Removed(node))
    }

    /// It puts the second element behind the first one's children, as `Doc::move_last` does. Where
    /// that is impossible there is no change.
    pub fn move_last(&mut self, doc: &mut Doc, first: usize, second: usize) -> Result<Put, NoMemory>
        requires first_element { is_element_at doc.old.tree first ≡ true }
        requires second_element { is_element_at doc.old.tree second ≡ true }
        ensures answer { IfOk result (λ answer. answer ≡
            (if lies_in doc.old.tree first second then put.Impossible else put.Done)) }
        ensures ok { OnOk result (doc.new ≡ record doc.old {
          tree = (if lies_in doc.old.tree first second then doc.old.tree
              else moved doc.old.tree second first None);
        }) }
        ensures adds { OnOk result (self.new ≡
            (if lies_in doc.old.tree first second then self.old
            else with_more (change.Moved first second ∷ []) self.old)) }
        ensures logged { OnOk result (Logs self.old doc.old self.new doc.new) }
    {
        match doc.move_last(first, second)? {
            Put::Impossible => Ok(Put::Impossible),
            Put::Done => {
                self.add(Change::Moved { first, second })?;
                Ok(Put::Done)
            }
        }
    }

    /// It puts a fragment in the place of a node's children, as `Doc::fill` does.
    pub fn fill(&mut self, doc: &mut Doc, target: usize, fragment: Fragment) -> Result<(), NoMemory>
        requires { target < length doc.old.tree }
        ensures ok { OnOk result (doc.new ≡ record doc.old {
          tree = filled doc.old.tree target fragment.form fragment.ops;
        }) }
        ensures adds { OnOk result (self.new ≡
            with_more (change.Filled target fragment ∷ []) self.old) }
        ensures logged { OnOk result (Logs self.old doc.old self.new doc.new) }
    {
        fragment.fill(doc, target)?;
        self.add(Change::Filled { target, fragment })
    }
}

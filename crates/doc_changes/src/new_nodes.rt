//! What stands in an element's place.

ghost use Rattle.std.specs.Prelude.{◌≡◌, ◌<◌, length, OnOk};
ghost use Rattle.standard.specs.Fragment.{filled};
ghost use Rattle.doc_changes.specs.Fragments.{CanBeDone};

use html_types::NoMemory;
use op_exec::Doc;
use std::marker::Model;
use text_store::Ops;

/// The operations that make the nodes of a fragment, for one tree or for several alike: its type
/// says that they can be executed there.
#[derive(Drop)]
pub struct Fragment {
    form: bool,
    ops: Ops,
}

impl Model for Fragment {
    ghost use Rattle.doc_changes.specs.Fragments.{FragmentView, CanBeDone};

    ghost Value = { FragmentView };

    ghost view = { λ f. record { form = f.form; ops = f.ops } };

    ghost invariant = { λ f. CanBeDone f.form f.ops };
}

impl Fragment {
    /// Those operations, and whether they name a form element that none of them makes.
    pub fn new(form: bool, ops: Ops) -> Fragment
        requires { CanBeDone form ops }
        ensures { result ≡ record { form = form; ops = ops } }
    {
        Fragment { form, ops }
    }

    /// The document gets its nodes in the place of a node's children, as `Doc::fill` does.
    pub fn fill(&self, doc: &mut Doc, target: usize) -> Result<(), NoMemory>
        requires { target < length doc.old.tree }
        ensures { OnOk result (doc.new ≡ record doc.old {
          tree = filled doc.old.tree target self.now.form self.now.ops;
        }) }
    {
        doc.fill(target, self.form, &self.ops)
    }
}

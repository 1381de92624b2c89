//! New elements.

ghost use Rattle.std.specs.Prelude.{◌≡◌, OnOk, OnErr};
ghost use Rattle.html_types.specs.declared.word.Word.TheVariants.{Template};
ghost use Rattle.standard.specs.Tree.{Keeps};
ghost use Rattle.standard.specs.Elements.{is_word};
ghost use Rattle.standard.specs.Act.{element_made};
ghost use Rattle.text_store.specs.Views.{seen_name};

use doc_tree::Tree;
use html_types::{Kind, NoMemory, Word};
use std::alloc::Global;
use text_store::{Listed, SeenName};

// Whether it is HTML's template: an element of MathML or SVG of that name has no contents.
fn is_template(name: SeenName<'_>) -> bool
    ensures { result ≡ is_word Template (seen_name name.entry) }
{
    match name {
        SeenName::Known(word) => word.same(Word::Template),
        SeenName::Other(_, _) => false,
    }
}

/// A new element, which stands nowhere; a template is made with its contents.
pub(crate) fn make_element(
    alloc: Global,
    tree: &mut Tree,
    name: SeenName<'_>,
    attributes: &Listed<'_>,
) -> Result<(), NoMemory>
    ensures ok { OnOk result
        (tree.new ≡ element_made tree.old (seen_name name.entry) attributes.now) }
    ensures err { OnErr result (tree.new ≡ tree.old) }
    ensures keeps { Keeps tree.old tree.new }
{
    if is_template(name) {
        let attributes = attributes.to_attributes(alloc)?;
        let name = name.to_name(alloc)?;
        tree.make_template(Kind::Element { name, attributes })?;
    } else {
        tree.make_element(name, attributes)?;
    }
    Ok(())
}

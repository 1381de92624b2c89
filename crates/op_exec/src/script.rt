//! Which scripts run (4.12.1.1 #script-processing-model, prepare the script element).

ghost use Rattle.std.specs.Prelude.{◌≡◌, ◌↔◌, [], map, nat_lt, IsTrue, Some};
ghost use Rattle.std.specs.List.{list_any, list_all};
ghost use Rattle.std.specs.Str.{chars};
ghost use Rattle.html_types.specs.Text.{same_text};
ghost use Rattle.std.specs.Char.{to_ascii_lowercase};
ghost use Rattle.standard.specs.Prepare.{is_javascript, strip};

use doc_tree::Tree;

/// How a script runs when its end tag is met.
#[derive(Clone, Copy, PartialEq, Eq)]
pub enum ScriptKind {
    /// Its own text.
    Inline,
    /// The file that its `src` names.
    External,
    /// Not at all.
    Still,
}

/// The JavaScript MIME type essences.
const JAVASCRIPT_TYPES: [&str; 16] = [
    "application/ecmascript",
    "application/javascript",
    "application/x-ecmascript",
    "application/x-javascript",
    "text/ecmascript",
    "text/javascript",
    "text/javascript1.0",
    "text/javascript1.1",
    "text/javascript1.2",
    "text/javascript1.3",
    "text/javascript1.4",
    "text/javascript1.5",
    "text/jscript",
    "text/livescript",
    "text/x-ecmascript",
    "text/x-javascript",
];

// Whether the text, without ASCII white space at its ends, is the name, whatever the case of its
// letters.
fn is_type(text: &str, name: &str) -> bool
    requires { IsTrue (list_all (λ b. nat_lt b 128) name.now) }
    ensures { result
        ≡ same_text (map to_ascii_lowercase (strip (chars text.now)))
        (map to_ascii_lowercase name.now) }
{
    text.trim_ascii().eq_ignore_ascii_case(name)
}

// Whether it is one of the names.
fn is_among(text: &str, names: &[&str]) -> bool
    requires { IsTrue (list_all (λ name. list_all (λ b. nat_lt b 128) name.now) names.now) }
    ensures { result
        ≡ list_any
        (λ name. same_text (map to_ascii_lowercase (strip (chars text.now)))
        (map to_ascii_lowercase name.now)) names.now }
{
    for name in names {
        if is_type(text, name) {
            return true;
        }
    }
    false
}

/// Whether a `type` that is there says that the script is JavaScript.
pub fn is_javascript(text: &str) -> bool
    ensures { result ≡ is_javascript (Some (chars text.now)) }
{
    text.is_empty() || is_among(text, &JAVASCRIPT_TYPES)
}

ghost use Rattle.std.specs.Prelude.{◌<◌, ◌||◌, is_some, length, codes};
ghost use Rattle.standard.specs.Tree.{kind_of, attributes_of, attribute, script_text};
ghost use Rattle.standard.specs.Prepare.{has, may_run, prepared_by, prepared_with, prepare};
ghost use Rattle.op_exec.specs.Scripts.{script_kind};

// Whether the element has an attribute.
fn has(tree: &Tree, node: usize, name: &str) -> bool
    requires { node < length tree.now }
    ensures { result
        ≡ is_some (attribute (chars name.now) (attributes_of (kind_of tree.now node))) }
{
    tree.attribute(node, name).is_some()
}

// Whether the element's `type` says JavaScript.
#[tactic(auto, using(std::proofs::lemmas::Grind::common_steps, crate::proofs::Literals::type_text))]
fn has_javascript_type(tree: &Tree, node: usize) -> bool
    requires { node < length tree.now }
    ensures { result
        ≡ is_javascript (attribute (codes "type") (attributes_of (kind_of tree.now node))) }
{
    match tree.attribute(node, "type") {
        None => true,
        Some(text) => is_javascript(text),
    }
}

#[tactic(auto, using(std::proofs::lemmas::Grind::common_steps, crate::proofs::Literals::nomodule_text))]
fn may_run(tree: &Tree, node: usize) -> bool
    requires { node < length tree.now }
    ensures { result ≡ may_run (attributes_of (kind_of tree.now node)) }
{
    has_javascript_type(tree, node) && !has(tree, node, "nomodule")
}

// Whether the script, if it is external, would run later.
#[tactic(auto, using(std::proofs::lemmas::Grind::common_steps, crate::proofs::Literals::async_text, crate::proofs::Literals::defer_text))]
fn is_later(tree: &Tree, node: usize) -> bool
    requires { node < length tree.now }
    ensures { result
        ≡ (has "async" (attributes_of (kind_of tree.now node))
        || has "defer" (attributes_of (kind_of tree.now node))) }
{
    has(tree, node, "async") || has(tree, node, "defer")
}

// Whether a text has no characters.
fn is_empty(text: &str) -> bool
    ensures { IsTrue result ↔ (chars text.now ≡ []) }
{
    text.is_empty()
}

// How a connected script runs that is JavaScript.
fn runnable_kind(tree: &Tree, node: usize) -> ScriptKind
    requires { node < length tree.now }
    ensures { let attributes = attributes_of (kind_of tree.now node) in
        result ≡ script_kind
        (prepared_by (attribute (codes "src") attributes)
        (has "async" attributes || has "defer" attributes) (script_text tree.now node)) }
{
    match tree.attribute(node, "src") {
        None => {
            if tree.has_child_text(node) {
                ScriptKind::Inline
            } else {
                ScriptKind::Still
            }
        }
        Some(src) => {
            if is_empty(src) {
                return ScriptKind::Still;
            }
            if is_later(tree, node) {
                return ScriptKind::Still;
            }
            ScriptKind::External
        }
    }
}

/// How the script element runs, on the tree as it is now.
#[tactic(auto, unfolding(standard::specs::Prepare::prepare))]
pub fn kind_of_script(tree: &Tree, node: usize) -> ScriptKind
    requires { node < length tree.now }
    ensures { result ≡ script_kind (prepare tree.now node) }
{
    if !tree.connected(node) {
        return ScriptKind::Still;
    }
    if !may_run(tree, node) {
        return ScriptKind::Still;
    }
    runnable_kind(tree, node)
}

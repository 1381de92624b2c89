//! The end tags of formatting elements that close the current node.

ghost use Rattle.std.specs.Prelude.{◌≡◌, ◌≤◌, List, length, IsTrue, IsFalse, false};
ghost use Rattle.html_types.specs.declared.operation.Op.{Op};
ghost use Rattle.standard.specs.Adoption.{adopted, adopt};
ghost use Rattle.builder_state.specs.Latest.{is_latest, current_is_latest};

use html_types::{ActiveFormatting, FormattingEntry, Open, OpenElement, Word};
use tag_sets::is_the;

/// Whether the element is that of the latest entry, which has the name.
fn has_latest(formats: &ActiveFormatting, element: &OpenElement, word: Word) -> bool
    ensures { result ≡ is_latest word element.now formats.now }
{
    match formats.latest() {
        None => false,
        Some(FormattingEntry::Marker) => false,
        Some(FormattingEntry::Element { id, tag }) => element.id.same(*id)
            && is_the(word, &tag.name),
    }
}

/// Whether the current node is the element of the latest entry, which has the name.
fn closes_latest(state: &Open, word: Word) -> bool
    ensures { result ≡ current_is_latest word state.now.stack state.now.formats }
{
    match state.stack.latest() {
        None => false,
        Some(last) => has_latest(&state.formats, last, word),
    }
}

/// The adoption agency algorithm (13.2.6.4.7 #parsing-main-inbody) for an end tag of that name,
/// where it only pops the current node and takes its entry off. Else nothing changes.
#[tactic(auto, using(std::proofs::lemmas::Grind::common_steps, crate::proofs::Latest::closed_by))]
pub fn close_latest(state: &mut Open, word: Word) -> bool
    ensures closed { IsTrue result → (o : List Op)
        → adopted state.new o false ≡ adopt word state.old o }
    ensures kept { IsFalse result → state.new ≡ state.old }
    ensures shorter { length state.new.stack ≤ length state.old.stack }
{
    if !closes_latest(state, word) {
        return false;
    }
    state.stack.pop();
    state.formats.pop();
    true
}

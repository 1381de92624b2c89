//! States that are let go, each group in a function of its own: a state has many shapes, and code
//! that lets one go is as long as they are many.

use html_types::{MarkState, ReferenceState, TagState, TextState, TokState};

fn discard_text(_state: TextState) {}

fn discard_tag(_state: TagState) {}

fn discard_mark(_state: MarkState) {}

fn discard_reference(_state: ReferenceState) {}

/// Lets a state go.
pub(crate) fn discard(state: TokState) {
    match state {
        TokState::Text(text_state) => discard_text(text_state),
        TokState::Tag(tag_state) => discard_tag(tag_state),
        TokState::Mark(mark_state) => discard_mark(mark_state),
        TokState::Reference(reference_state) => discard_reference(reference_state),
    }
}

//! The rows of what begins with `<!`, and of bogus comments.

ghost use Rattle.std.specs.Prelude.{◌≡◌, ◌||◌, ◌&&◌, IfOk, codes};
ghost use Rattle.std.specs.Str.{chars};
ghost use Rattle.standard.specs.Entities.{is_front};
ghost use Rattle.standard.specs.MarkStates as rows;
ghost use Rattle.tok_rows.specs.Steps.{Follows};

use crate::cdata::cdata_state_row;
use crate::comment::comment_state_row;
use crate::doctype::doctype_state_row;
use char_class::shown;
use html_types::{
    CdataState, Class, CommentState, DoctypeState, MarkState, NoMemory, Text, TokState, Token,
    Tokens,
};
use std::alloc::Global;
use tok_rows::next::{Transition, again, emit_comment, finish_after, to};

/// One row: the next state, and the tokens that are emitted, added to `out`. `foreign` says that
/// the adjusted current node isn't an HTML element. After NoMemory `out` holds any tokens.
pub fn step(
    alloc: Global,
    foreign: bool,
    state: MarkState,
    class: Class,
    c: char,
    out: &mut Tokens,
) -> Result<Transition, NoMemory>
    ensures { IfOk result (Follows (rows.mark_row foreign state class c) out.old out.new) }
{
    match state {
        MarkState::MarkupDeclarationOpen(held) => {
            markup_declaration_open_row(alloc, foreign, held, class, c, out)
        }
        MarkState::BogusComment(text) => bogus_comment_row(text, class, c, out),
        MarkState::Comment(state) => comment_state_row(alloc, state, class, c, out),
        MarkState::Doctype(state) => doctype_state_row(alloc, state, class, c, out),
        MarkState::Cdata(state) => cdata_state_row(state, class, c, out),
    }
}

/// 13.2.5.41 #bogus-comment-state Bogus comment state
fn bogus_comment_row(
    mut text: Text,
    class: Class,
    c: char,
    out: &mut Tokens,
) -> Result<Transition, NoMemory>
    ensures { IfOk result (Follows (rows.bogus_comment_row text class c) out.old out.new) }
{
    match class {
        Class::Greater => emit_comment(text, out),
        Class::InputEnd => finish_after(Token::Comment(text), out),
        _ => {
            text.push(shown(c))?;
            to(TokState::Mark(MarkState::BogusComment(text)), out)
        }
    }
}

/// Whether a word begins with this text.
pub(crate) fn begins(text: &Text, word: &str) -> bool
    ensures { result ≡ is_front text.now (chars word.now) }
{
    word.starts_with(text.as_str())
}

/// Whether `--` begins with what was read, or `doctype` with the same in lower case, or, in foreign
/// content, `[CDATA[`.
#[tactic(auto, using(crate::proofs::Fronts::chars_dashes, crate::proofs::Fronts::chars_doctype, crate::proofs::Fronts::chars_cdata))]
fn begins_declaration(foreign: bool, seen: &Text, lower: &Text) -> bool
    ensures { result
        ≡ (is_front seen.now (codes "--") || is_front lower.now (codes "doctype")
        || (foreign && is_front seen.now (codes "[CDATA["))) }
{
    begins(seen, "--") || begins(lower, "doctype") || (foreign && begins(seen, "[CDATA["))
}

/// Behind what is held and one character more, which are `seen`: `--` begins a comment, `doctype`
/// in any case a doctype, and, in foreign content, `[CDATA[` a CDATA section.
#[tactic(auto, using(crate::proofs::Fronts::chars_dashes, crate::proofs::Fronts::chars_doctype, crate::proofs::Fronts::chars_cdata))]
fn declaration_step(
    alloc: Global,
    foreign: bool,
    held: Text,
    seen: Text,
    out: &mut Tokens,
) -> Result<Transition, NoMemory>
    ensures { IfOk result (Follows (rows.declaration_step foreign held seen) out.old out.new) }
{
    let lower = seen.lower(alloc)?;
    if seen.is("--") {
        to(TokState::Mark(MarkState::Comment(CommentState::Start)), out)
    } else if lower.is("doctype") {
        to(
            TokState::Mark(MarkState::Doctype(DoctypeState::Doctype)),
            out,
        )
    } else if foreign && seen.is("[CDATA[") {
        to(TokState::Mark(MarkState::Cdata(CdataState::Section)), out)
    } else if begins_declaration(foreign, &seen, &lower) {
        to(TokState::Mark(MarkState::MarkupDeclarationOpen(seen)), out)
    } else {
        again(TokState::Mark(MarkState::BogusComment(held)), out)
    }
}

/// 13.2.5.42 #markup-declaration-open-state Markup declaration open state. Outside foreign
/// content `[CDATA[` begins a bogus comment.
fn markup_declaration_open_row(
    alloc: Global,
    foreign: bool,
    held: Text,
    class: Class,
    c: char,
    out: &mut Tokens,
) -> Result<Transition, NoMemory>
    ensures { IfOk result
        (Follows (rows.markup_declaration_open_row foreign held class c) out.old out.new) }
{
    match class {
        Class::InputEnd => again(TokState::Mark(MarkState::BogusComment(held)), out),
        _ => {
            let mut seen = held.copy(alloc)?;
            seen.push(c)?;
            declaration_step(alloc, foreign, held, seen, out)
        }
    }
}

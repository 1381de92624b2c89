//! The rows of comments.

ghost use Rattle.std.specs.Prelude.{◌≡◌, ◌∷◌, ◌++◌, [], IfOk};
ghost use Rattle.standard.specs.CommentStates as rows;
ghost use Rattle.standard.specs.Step as steps;
ghost use Rattle.tok_rows.specs.Steps.{Follows};

use char_class::shown;
use html_types::{Class, CommentState, MarkState, NoMemory, Text, TokState, Token, Tokens};
use std::alloc::Global;
use tok_rows::next::{Transition, again, emit_comment, finish_after, to};

/// The row of a state of comments.
pub fn comment_state_row(
    alloc: Global,
    state: CommentState,
    class: Class,
    c: char,
    out: &mut Tokens,
) -> Result<Transition, NoMemory>
    ensures { IfOk result (Follows (rows.comment_state_row state class c) out.old out.new) }
{
    match state {
        CommentState::Start => comment_start_row(alloc, class, c, out),
        CommentState::StartDash => comment_start_dash_row(alloc, class, c, out),
        CommentState::Inside(text) => comment_inside_row(text, class, c, out),
        CommentState::LessThan(text) => comment_less_than_row(text, class, c, out),
        CommentState::LessThanBang(text) => comment_bang_row(text, class, c, out),
        CommentState::LessThanBangDash(text) => comment_bang_dash_row(text, class, c, out),
        CommentState::LessThanBangDashDash(text) => comment_bang_dash_dash_row(text, class, c, out),
        CommentState::EndDash(text) => comment_end_dash_row(text, class, c, out),
        CommentState::End(text) => comment_end_row(text, class, c, out),
        CommentState::EndBang(text) => comment_end_bang_row(text, class, c, out),
    }
}

/// Switches to a state of comments.
fn to_comment(state: CommentState, out: &mut Tokens) -> Result<Transition, NoMemory>
    ensures { IfOk result (Follows (steps.to (rows.in_comment state)) out.old out.new) }
{
    to(TokState::Mark(MarkState::Comment(state)), out)
}

/// Reconsumes the character in a state of comments.
fn again_in_comment(state: CommentState, out: &mut Tokens) -> Result<Transition, NoMemory>
    ensures { IfOk result (Follows (steps.again (rows.in_comment state)) out.old out.new) }
{
    again(TokState::Mark(MarkState::Comment(state)), out)
}

/// Emits a comment as it is, at the end of the input.
fn finish_comment(text: Text, out: &mut Tokens) -> Result<Transition, NoMemory>
    ensures { IfOk result (Follows (rows.finish_comment text) out.old out.new) }
{
    finish_after(Token::Comment(text), out)
}

/// The text with `--` at its end.
fn with_dashes(mut text: Text) -> Result<Text, NoMemory>
    ensures { IfOk result (λ t. t ≡ text ++ 45 ∷ 45 ∷ []) }
{
    text.push('-')?;
    text.push('-')?;
    Ok(text)
}

/// The text with `--!` at its end.
fn with_dashes_bang(mut text: Text) -> Result<Text, NoMemory>
    ensures { IfOk result (λ t. t ≡ text ++ 45 ∷ 45 ∷ 33 ∷ []) }
{
    text.push('-')?;
    text.push('-')?;
    text.push('!')?;
    Ok(text)
}

/// 13.2.5.43 #comment-start-state Comment start state
fn comment_start_row(
    alloc: Global,
    class: Class,
    c: char,
    out: &mut Tokens,
) -> Result<Transition, NoMemory>
    ensures { IfOk result (Follows (rows.comment_start_row class c) out.old out.new) }
{
    match class {
        Class::Hyphen => to_comment(CommentState::StartDash, out),
        Class::Greater => emit_comment(Text::new(alloc), out),
        Class::InputEnd => finish_comment(Text::new(alloc), out),
        _ => again_in_comment(CommentState::Inside(Text::new(alloc)), out),
    }
}

/// 13.2.5.44 #comment-start-dash-state Comment start dash state
fn comment_start_dash_row(
    alloc: Global,
    class: Class,
    c: char,
    out: &mut Tokens,
) -> Result<Transition, NoMemory>
    ensures { IfOk result (Follows (rows.comment_start_dash_row class c) out.old out.new) }
{
    let mut text = Text::new(alloc);
    match class {
        Class::Hyphen => to_comment(CommentState::End(text), out),
        Class::Greater => emit_comment(text, out),
        Class::InputEnd => finish_comment(text, out),
        _ => {
            text.push('-')?;
            again_in_comment(CommentState::Inside(text), out)
        }
    }
}

/// 13.2.5.45 #comment-state Comment state
fn comment_inside_row(
    mut text: Text,
    class: Class,
    c: char,
    out: &mut Tokens,
) -> Result<Transition, NoMemory>
    ensures { IfOk result (Follows (rows.comment_inside_row text class c) out.old out.new) }
{
    match class {
        Class::Less => {
            text.push(c)?;
            to_comment(CommentState::LessThan(text), out)
        }
        Class::Hyphen => to_comment(CommentState::EndDash(text), out),
        Class::InputEnd => finish_comment(text, out),
        _ => {
            text.push(shown(c))?;
            to_comment(CommentState::Inside(text), out)
        }
    }
}

/// 13.2.5.46 #comment-less-than-sign-state Comment less-than sign state
fn comment_less_than_row(
    mut text: Text,
    class: Class,
    c: char,
    out: &mut Tokens,
) -> Result<Transition, NoMemory>
    ensures { IfOk result (Follows (rows.comment_less_than_row text class c) out.old out.new) }
{
    match class {
        Class::Bang => {
            text.push(c)?;
            to_comment(CommentState::LessThanBang(text), out)
        }
        Class::Less => {
            text.push(c)?;
            to_comment(CommentState::LessThan(text), out)
        }
        Class::InputEnd => finish_comment(text, out),
        _ => again_in_comment(CommentState::Inside(text), out),
    }
}

/// 13.2.5.47 #comment-less-than-sign-bang-state Comment less-than sign bang state
fn comment_bang_row(
    text: Text,
    class: Class,
    c: char,
    out: &mut Tokens,
) -> Result<Transition, NoMemory>
    ensures { IfOk result (Follows (rows.comment_bang_row text class c) out.old out.new) }
{
    match class {
        Class::Hyphen => to_comment(CommentState::LessThanBangDash(text), out),
        Class::InputEnd => finish_comment(text, out),
        _ => again_in_comment(CommentState::Inside(text), out),
    }
}

/// 13.2.5.48 #comment-less-than-sign-bang-dash-state Comment less-than sign bang dash state
fn comment_bang_dash_row(
    text: Text,
    class: Class,
    c: char,
    out: &mut Tokens,
) -> Result<Transition, NoMemory>
    ensures { IfOk result (Follows (rows.comment_bang_dash_row text class c) out.old out.new) }
{
    match class {
        Class::Hyphen => to_comment(CommentState::LessThanBangDashDash(text), out),
        Class::InputEnd => finish_comment(text, out),
        _ => again_in_comment(CommentState::EndDash(text), out),
    }
}

/// 13.2.5.49 #comment-less-than-sign-bang-dash-dash-state Comment less-than sign bang dash dash
/// state
fn comment_bang_dash_dash_row(
    text: Text,
    class: Class,
    c: char,
    out: &mut Tokens,
) -> Result<Transition, NoMemory>
    ensures { IfOk result (Follows (rows.comment_bang_dash_dash_row text class c) out.old out.new) }
{
    match class {
        Class::InputEnd => finish_comment(text, out),
        _ => again_in_comment(CommentState::End(text), out),
    }
}

/// 13.2.5.50 #comment-end-dash-state Comment end dash state
fn comment_end_dash_row(
    mut text: Text,
    class: Class,
    c: char,
    out: &mut Tokens,
) -> Result<Transition, NoMemory>
    ensures { IfOk result (Follows (rows.comment_end_dash_row text class c) out.old out.new) }
{
    match class {
        Class::Hyphen => to_comment(CommentState::End(text), out),
        Class::InputEnd => finish_comment(text, out),
        _ => {
            text.push('-')?;
            again_in_comment(CommentState::Inside(text), out)
        }
    }
}

/// 13.2.5.51 #comment-end-state Comment end state
fn comment_end_row(
    mut text: Text,
    class: Class,
    c: char,
    out: &mut Tokens,
) -> Result<Transition, NoMemory>
    ensures { IfOk result (Follows (rows.comment_end_row text class c) out.old out.new) }
{
    match class {
        Class::Greater => emit_comment(text, out),
        Class::Bang => to_comment(CommentState::EndBang(text), out),
        Class::Hyphen => {
            text.push('-')?;
            to_comment(CommentState::End(text), out)
        }
        Class::InputEnd => finish_comment(text, out),
        _ => again_in_comment(CommentState::Inside(with_dashes(text)?), out),
    }
}

/// 13.2.5.52 #comment-end-bang-state Comment end bang state
fn comment_end_bang_row(
    text: Text,
    class: Class,
    c: char,
    out: &mut Tokens,
) -> Result<Transition, NoMemory>
    ensures { IfOk result (Follows (rows.comment_end_bang_row text class c) out.old out.new) }
{
    match class {
        Class::Hyphen => to_comment(CommentState::EndDash(with_dashes_bang(text)?), out),
        Class::Greater => emit_comment(text, out),
        Class::InputEnd => finish_comment(text, out),
        _ => again_in_comment(CommentState::Inside(with_dashes_bang(text)?), out),
    }
}

//! The rows of script data behind `<!--`, but for those that every raw text has.

ghost use Rattle.std.specs.Prelude.{◌≡◌, IfOk, codes};
ghost use Rattle.html_types.specs.Text.{same_text};
ghost use Rattle.standard.specs.EscapeStates as rows;
ghost use Rattle.standard.specs.Step as steps;
ghost use Rattle.tok_rows.specs.Steps.{Follows};

use char_class::{name_char, shown};
use html_types::{Class, NoMemory, RawText, Text, TextState, TokState, Token, Tokens, Word};
use std::alloc::Global;
use tok_rows::next::{Transition, again, emit, finish, to};

/// Reconsumes the character in a state of text.
fn again_in(state: TextState, out: &mut Tokens) -> Result<Transition, NoMemory>
    ensures { IfOk result (Follows (steps.again (steps.in_text state)) out.old out.new) }
{
    again(TokState::Text(state), out)
}

/// Whether the name is `script`.
fn is_script(name: &Text) -> bool
    ensures { result ≡ same_text name.now (codes "script") }
{
    name.is(Word::Script.text())
}

/// 13.2.5.18 #script-data-escape-start-state Script data escape start state
pub fn escape_start_row(
    last: Option<Word>,
    class: Class,
    c: char,
    out: &mut Tokens,
) -> Result<Transition, NoMemory>
    ensures { IfOk result (Follows (rows.escape_start_row last class c) out.old out.new) }
{
    match class {
        Class::Hyphen => emit(Token::Character(c), TextState::EscapeStartDash(last), out),
        _ => again_in(TextState::Raw(RawText::ScriptData, last), out),
    }
}

/// 13.2.5.19 #script-data-escape-start-dash-state Script data escape start dash state
pub fn escape_start_dash_row(
    last: Option<Word>,
    class: Class,
    c: char,
    out: &mut Tokens,
) -> Result<Transition, NoMemory>
    ensures { IfOk result (Follows (rows.escape_start_dash_row last class c) out.old out.new) }
{
    match class {
        Class::Hyphen => emit(Token::Character(c), TextState::EscapedDashDash(last), out),
        _ => again_in(TextState::Raw(RawText::ScriptData, last), out),
    }
}

/// 13.2.5.21 #script-data-escaped-dash-state Script data escaped dash state
pub fn escaped_dash_row(
    last: Option<Word>,
    class: Class,
    c: char,
    out: &mut Tokens,
) -> Result<Transition, NoMemory>
    ensures { IfOk result (Follows (rows.escaped_dash_row last class c) out.old out.new) }
{
    match class {
        Class::Hyphen => emit(Token::Character(c), TextState::EscapedDashDash(last), out),
        Class::Less => to(
            TokState::Text(TextState::RawLessThan(RawText::ScriptDataEscaped, last)),
            out,
        ),
        Class::InputEnd => finish(out),
        _ => emit(
            Token::Character(shown(c)),
            TextState::Raw(RawText::ScriptDataEscaped, last),
            out,
        ),
    }
}

/// 13.2.5.22 #script-data-escaped-dash-dash-state Script data escaped dash dash state
pub fn escaped_dash_dash_row(
    last: Option<Word>,
    class: Class,
    c: char,
    out: &mut Tokens,
) -> Result<Transition, NoMemory>
    ensures { IfOk result (Follows (rows.escaped_dash_dash_row last class c) out.old out.new) }
{
    match class {
        Class::Hyphen => emit(Token::Character(c), TextState::EscapedDashDash(last), out),
        Class::Less => to(
            TokState::Text(TextState::RawLessThan(RawText::ScriptDataEscaped, last)),
            out,
        ),
        Class::Greater => emit(
            Token::Character(c),
            TextState::Raw(RawText::ScriptData, last),
            out,
        ),
        Class::InputEnd => finish(out),
        _ => emit(
            Token::Character(shown(c)),
            TextState::Raw(RawText::ScriptDataEscaped, last),
            out,
        ),
    }
}

/// 13.2.5.26 #script-data-double-escape-start-state Script data double escape start state
pub fn double_escape_start_row(
    last: Option<Word>,
    mut name: Text,
    class: Class,
    c: char,
    out: &mut Tokens,
) -> Result<Transition, NoMemory>
    ensures { IfOk result
        (Follows (rows.double_escape_start_row last name class c) out.old out.new) }
{
    match class {
        Class::Space | Class::Slash | Class::Greater => {
            if is_script(&name) {
                emit(Token::Character(c), TextState::DoubleEscaped(last), out)
            } else {
                emit(
                    Token::Character(c),
                    TextState::Raw(RawText::ScriptDataEscaped, last),
                    out,
                )
            }
        }
        Class::Alpha => {
            name.push(name_char(c))?;
            emit(
                Token::Character(c),
                TextState::DoubleEscapeStart(last, name),
                out,
            )
        }
        _ => again_in(TextState::Raw(RawText::ScriptDataEscaped, last), out),
    }
}

/// 13.2.5.27 #script-data-double-escaped-state Script data double escaped state
pub fn double_escaped_row(
    last: Option<Word>,
    class: Class,
    c: char,
    out: &mut Tokens,
) -> Result<Transition, NoMemory>
    ensures { IfOk result (Follows (rows.double_escaped_row last class c) out.old out.new) }
{
    match class {
        Class::Hyphen => emit(Token::Character(c), TextState::DoubleEscapedDash(last), out),
        Class::Less => emit(
            Token::Character(c),
            TextState::DoubleEscapedLessThan(last),
            out,
        ),
        Class::InputEnd => finish(out),
        _ => emit(
            Token::Character(shown(c)),
            TextState::DoubleEscaped(last),
            out,
        ),
    }
}

/// 13.2.5.28 #script-data-double-escaped-dash-state Script data double escaped dash state
pub fn double_escaped_dash_row(
    last: Option<Word>,
    class: Class,
    c: char,
    out: &mut Tokens,
) -> Result<Transition, NoMemory>
    ensures { IfOk result (Follows (rows.double_escaped_dash_row last class c) out.old out.new) }
{
    match class {
        Class::Hyphen => emit(
            Token::Character(c),
            TextState::DoubleEscapedDashDash(last),
            out,
        ),
        Class::Less => emit(
            Token::Character(c),
            TextState::DoubleEscapedLessThan(last),
            out,
        ),
        Class::InputEnd => finish(out),
        _ => emit(
            Token::Character(shown(c)),
            TextState::DoubleEscaped(last),
            out,
        ),
    }
}

/// 13.2.5.29 #script-data-double-escaped-dash-dash-state Script data double escaped dash dash state
pub fn double_escaped_dash_dash_row(
    last: Option<Word>,
    class: Class,
    c: char,
    out: &mut Tokens,
) -> Result<Transition, NoMemory>
    ensures { IfOk result
        (Follows (rows.double_escaped_dash_dash_row last class c) out.old out.new) }
{
    match class {
        Class::Hyphen => emit(
            Token::Character(c),
            TextState::DoubleEscapedDashDash(last),
            out,
        ),
        Class::Less => emit(
            Token::Character(c),
            TextState::DoubleEscapedLessThan(last),
            out,
        ),
        Class::Greater => emit(
            Token::Character(c),
            TextState::Raw(RawText::ScriptData, last),
            out,
        ),
        Class::InputEnd => finish(out),
        _ => emit(
            Token::Character(shown(c)),
            TextState::DoubleEscaped(last),
            out,
        ),
    }
}

/// 13.2.5.30 #script-data-double-escaped-less-than-sign-state Script data double escaped
/// less-than sign state
pub fn double_escaped_less_than_row(
    alloc: Global,
    last: Option<Word>,
    class: Class,
    c: char,
    out: &mut Tokens,
) -> Result<Transition, NoMemory>
    ensures { IfOk result
        (Follows (rows.double_escaped_less_than_row last class c) out.old out.new) }
{
    match class {
        Class::Slash => emit(
            Token::Character(c),
            TextState::DoubleEscapeEnd(last, Text::new(alloc)),
            out,
        ),
        _ => again_in(TextState::DoubleEscaped(last), out),
    }
}

/// 13.2.5.31 #script-data-double-escape-end-state Script data double escape end state
pub fn double_escape_end_row(
    last: Option<Word>,
    mut name: Text,
    class: Class,
    c: char,
    out: &mut Tokens,
) -> Result<Transition, NoMemory>
    ensures { IfOk result (Follows (rows.double_escape_end_row last name class c) out.old out.new) }
{
    match class {
        Class::Space | Class::Slash | Class::Greater => {
            if is_script(&name) {
                emit(
                    Token::Character(c),
                    TextState::Raw(RawText::ScriptDataEscaped, last),
                    out,
                )
            } else {
                emit(Token::Character(c), TextState::DoubleEscaped(last), out)
            }
        }
        Class::Alpha => {
            name.push(name_char(c))?;
            emit(
                Token::Character(c),
                TextState::DoubleEscapeEnd(last, name),
                out,
            )
        }
        _ => again_in(TextState::DoubleEscaped(last), out),
    }
}

//! The rows of doctypes. Public and system identifiers are read and dropped.

ghost use Rattle.std.specs.Prelude.{◌≡◌, ◌||◌, IfOk, codes};
ghost use Rattle.standard.specs.Entities.{is_front};
ghost use Rattle.standard.specs.DoctypeStates as rows;
ghost use Rattle.standard.specs.Step as steps;
ghost use Rattle.tok_rows.specs.Steps.{Follows};

use crate::declaration::begins;
use char_class::name_char;
use html_types::{
    Class, DoctypeState, MarkState, NoMemory, Quote, Text, TextState, TokState, Token, Tokens,
};
use std::alloc::Global;
use tok_rows::next::{Transition, again, emit, finish_after, to};

/// The row of a state of doctypes.
pub fn doctype_state_row(
    alloc: Global,
    state: DoctypeState,
    class: Class,
    c: char,
    out: &mut Tokens,
) -> Result<Transition, NoMemory>
    ensures { IfOk result (Follows (rows.doctype_state_row state class c) out.old out.new) }
{
    match state {
        DoctypeState::Doctype => doctype_row(alloc, class, c, out),
        DoctypeState::BeforeName => before_doctype_name_row(alloc, class, c, out),
        DoctypeState::Name(name) => doctype_name_row(name, class, c, out),
        DoctypeState::AfterName(name) => after_doctype_name_row(alloc, name, class, c, out),
        DoctypeState::Keyword(name, held) => doctype_keyword_row(name, held, class, c, out),
        DoctypeState::AfterPublicKeyword(name) => after_public_keyword_row(name, class, c, out),
        DoctypeState::PublicIdentifier(name, quote) => {
            public_identifier_row(name, quote, class, c, out)
        }
        DoctypeState::AfterPublicIdentifier(name) => {
            after_public_identifier_row(name, class, c, out)
        }
        DoctypeState::AfterSystemKeyword(name) => after_system_keyword_row(name, class, c, out),
        DoctypeState::SystemIdentifier(name, quote) => {
            system_identifier_row(name, quote, class, c, out)
        }
        DoctypeState::AfterSystemIdentifier(name) => {
            after_system_identifier_row(name, class, c, out)
        }
        DoctypeState::Bogus(name, force_quirks) => bogus_doctype_row(
            name,
            force_quirks,
            class,
            c,
            out,
        ),
    }
}

/// Switches to a state of doctypes.
fn to_doctype(state: DoctypeState, out: &mut Tokens) -> Result<Transition, NoMemory>
    ensures { IfOk result (Follows (steps.to (rows.in_doctype state)) out.old out.new) }
{
    to(TokState::Mark(MarkState::Doctype(state)), out)
}

/// Reconsumes the character in a state of doctypes.
fn again_in_doctype(state: DoctypeState, out: &mut Tokens) -> Result<Transition, NoMemory>
    ensures { IfOk result (Follows (steps.again (rows.in_doctype state)) out.old out.new) }
{
    again(TokState::Mark(MarkState::Doctype(state)), out)
}

/// Emits the doctype, and switches to the data state.
fn emit_doctype(name: Text, force_quirks: bool, out: &mut Tokens) -> Result<Transition, NoMemory>
    ensures { IfOk result (Follows (rows.emit_doctype name force_quirks) out.old out.new) }
{
    emit(Token::Doctype { name, force_quirks }, TextState::Data, out)
}

/// Emits the doctype at the end of the input.
fn finish_doctype(name: Text, force_quirks: bool, out: &mut Tokens) -> Result<Transition, NoMemory>
    ensures { IfOk result (Follows (rows.finish_doctype name force_quirks) out.old out.new) }
{
    finish_after(Token::Doctype { name, force_quirks }, out)
}

/// 13.2.5.53 #doctype-state DOCTYPE state
fn doctype_row(
    alloc: Global,
    class: Class,
    c: char,
    out: &mut Tokens,
) -> Result<Transition, NoMemory>
    ensures { IfOk result (Follows (rows.doctype_row class c) out.old out.new) }
{
    match class {
        Class::Space => to_doctype(DoctypeState::BeforeName, out),
        Class::InputEnd => finish_doctype(Text::new(alloc), true, out),
        _ => again_in_doctype(DoctypeState::BeforeName, out),
    }
}

/// 13.2.5.54 #before-doctype-name-state Before DOCTYPE name state
fn before_doctype_name_row(
    alloc: Global,
    class: Class,
    c: char,
    out: &mut Tokens,
) -> Result<Transition, NoMemory>
    ensures { IfOk result (Follows (rows.before_doctype_name_row class c) out.old out.new) }
{
    match class {
        Class::Space => to_doctype(DoctypeState::BeforeName, out),
        Class::Greater => emit_doctype(Text::new(alloc), true, out),
        Class::InputEnd => finish_doctype(Text::new(alloc), true, out),
        _ => {
            let mut name = Text::new(alloc);
            name.push(name_char(c))?;
            to_doctype(DoctypeState::Name(name), out)
        }
    }
}

/// 13.2.5.55 #doctype-name-state DOCTYPE name state
fn doctype_name_row(
    mut name: Text,
    class: Class,
    c: char,
    out: &mut Tokens,
) -> Result<Transition, NoMemory>
    ensures { IfOk result (Follows (rows.doctype_name_row name class c) out.old out.new) }
{
    match class {
        Class::Space => to_doctype(DoctypeState::AfterName(name), out),
        Class::Greater => emit_doctype(name, false, out),
        Class::InputEnd => finish_doctype(name, true, out),
        _ => {
            name.push(name_char(c))?;
            to_doctype(DoctypeState::Name(name), out)
        }
    }
}

/// Whether `public` or `system` begins with what was read.
#[tactic(auto, using(crate::proofs::Fronts::chars_public, crate::proofs::Fronts::chars_system))]
fn begins_keyword(seen: &Text) -> bool
    ensures { result ≡ (is_front seen.now (codes "public") || is_front seen.now (codes "system")) }
{
    begins(seen, "public") || begins(seen, "system")
}

/// Behind the letters `seen`, in lower case: on with `public` or `system`, or nothing of the kind.
#[tactic(auto, using(crate::proofs::Fronts::chars_public, crate::proofs::Fronts::chars_system))]
fn keyword_step(name: Text, seen: Text, out: &mut Tokens) -> Result<Transition, NoMemory>
    ensures { IfOk result (Follows (rows.keyword_step name seen) out.old out.new) }
{
    if seen.is("public") {
        to_doctype(DoctypeState::AfterPublicKeyword(name), out)
    } else if seen.is("system") {
        to_doctype(DoctypeState::AfterSystemKeyword(name), out)
    } else if begins_keyword(&seen) {
        to_doctype(DoctypeState::Keyword(name, seen), out)
    } else {
        again_in_doctype(DoctypeState::Bogus(name, true), out)
    }
}

/// 13.2.5.56 #after-doctype-name-state After DOCTYPE name state
fn after_doctype_name_row(
    alloc: Global,
    name: Text,
    class: Class,
    c: char,
    out: &mut Tokens,
) -> Result<Transition, NoMemory>
    ensures { IfOk result (Follows (rows.after_doctype_name_row name class c) out.old out.new) }
{
    match class {
        Class::Space => to_doctype(DoctypeState::AfterName(name), out),
        Class::Greater => emit_doctype(name, false, out),
        Class::InputEnd => finish_doctype(name, true, out),
        _ => {
            let mut seen = Text::new(alloc);
            seen.push(name_char(c))?;
            keyword_step(name, seen, out)
        }
    }
}

/// 13.2.5.56 #after-doctype-name-state After DOCTYPE name state, within `PUBLIC` or `SYSTEM`
fn doctype_keyword_row(
    name: Text,
    mut held: Text,
    class: Class,
    c: char,
    out: &mut Tokens,
) -> Result<Transition, NoMemory>
    ensures { IfOk result (Follows (rows.doctype_keyword_row name held class c) out.old out.new) }
{
    match class {
        Class::InputEnd => finish_doctype(name, true, out),
        _ => {
            held.push(name_char(c))?;
            keyword_step(name, held, out)
        }
    }
}

/// 13.2.5.57 #after-doctype-public-keyword-state After DOCTYPE public keyword state,
/// 13.2.5.58 #before-doctype-public-identifier-state Before DOCTYPE public identifier state
fn after_public_keyword_row(
    name: Text,
    class: Class,
    c: char,
    out: &mut Tokens,
) -> Result<Transition, NoMemory>
    ensures { IfOk result (Follows (rows.after_public_keyword_row name class c) out.old out.new) }
{
    match class {
        Class::Space => to_doctype(DoctypeState::AfterPublicKeyword(name), out),
        Class::DoubleQuote => to_doctype(DoctypeState::PublicIdentifier(name, Quote::Double), out),
        Class::SingleQuote => to_doctype(DoctypeState::PublicIdentifier(name, Quote::Single), out),
        Class::Greater => emit_doctype(name, true, out),
        Class::InputEnd => finish_doctype(name, true, out),
        _ => again_in_doctype(DoctypeState::Bogus(name, true), out),
    }
}

/// 13.2.5.59 #doctype-public-identifier-(double-quoted)-state,
/// 13.2.5.60 #doctype-public-identifier-(single-quoted)-state DOCTYPE public identifier
/// (double-quoted), (single-quoted) state
fn public_identifier_row(
    name: Text,
    quote: Quote,
    class: Class,
    c: char,
    out: &mut Tokens,
) -> Result<Transition, NoMemory>
    ensures { IfOk result
        (Follows (rows.public_identifier_row name quote class c) out.old out.new) }
{
    match (quote, class) {
        (Quote::Double, Class::DoubleQuote) | (Quote::Single, Class::SingleQuote) => {
            to_doctype(DoctypeState::AfterPublicIdentifier(name), out)
        }
        (_, Class::Greater) => emit_doctype(name, true, out),
        (_, Class::InputEnd) => finish_doctype(name, true, out),
        _ => to_doctype(DoctypeState::PublicIdentifier(name, quote), out),
    }
}

/// 13.2.5.61 #after-doctype-public-identifier-state After DOCTYPE public identifier state,
/// 13.2.5.62 #between-doctype-public-and-system-identifiers-state Between DOCTYPE public and
/// system identifiers state
fn after_public_identifier_row(
    name: Text,
    class: Class,
    c: char,
    out: &mut Tokens,
) -> Result<Transition, NoMemory>
    ensures { IfOk result
        (Follows (rows.after_public_identifier_row name class c) out.old out.new) }
{
    match class {
        Class::Space => to_doctype(DoctypeState::AfterPublicIdentifier(name), out),
        Class::Greater => emit_doctype(name, false, out),
        Class::DoubleQuote => to_doctype(DoctypeState::SystemIdentifier(name, Quote::Double), out),
        Class::SingleQuote => to_doctype(DoctypeState::SystemIdentifier(name, Quote::Single), out),
        Class::InputEnd => finish_doctype(name, true, out),
        _ => again_in_doctype(DoctypeState::Bogus(name, true), out),
    }
}

/// 13.2.5.63 #after-doctype-system-keyword-state After DOCTYPE system keyword state,
/// 13.2.5.64 #before-doctype-system-identifier-state Before DOCTYPE system identifier state
fn after_system_keyword_row(
    name: Text,
    class: Class,
    c: char,
    out: &mut Tokens,
) -> Result<Transition, NoMemory>
    ensures { IfOk result (Follows (rows.after_system_keyword_row name class c) out.old out.new) }
{
    match class {
        Class::Space => to_doctype(DoctypeState::AfterSystemKeyword(name), out),
        Class::DoubleQuote => to_doctype(DoctypeState::SystemIdentifier(name, Quote::Double), out),
        Class::SingleQuote => to_doctype(DoctypeState::SystemIdentifier(name, Quote::Single), out),
        Class::Greater => emit_doctype(name, true, out),
        Class::InputEnd => finish_doctype(name, true, out),
        _ => again_in_doctype(DoctypeState::Bogus(name, true), out),
    }
}

/// 13.2.5.65 #doctype-system-identifier-(double-quoted)-state,
/// 13.2.5.66 #doctype-system-identifier-(single-quoted)-state DOCTYPE system identifier
/// (double-quoted), (single-quoted) state
fn system_identifier_row(
    name: Text,
    quote: Quote,
    class: Class,
    c: char,
    out: &mut Tokens,
) -> Result<Transition, NoMemory>
    ensures { IfOk result
        (Follows (rows.system_identifier_row name quote class c) out.old out.new) }
{
    match (quote, class) {
        (Quote::Double, Class::DoubleQuote) | (Quote::Single, Class::SingleQuote) => {
            to_doctype(DoctypeState::AfterSystemIdentifier(name), out)
        }
        (_, Class::Greater) => emit_doctype(name, true, out),
        (_, Class::InputEnd) => finish_doctype(name, true, out),
        _ => to_doctype(DoctypeState::SystemIdentifier(name, quote), out),
    }
}

/// 13.2.5.67 #after-doctype-system-identifier-state After DOCTYPE system identifier state
fn after_system_identifier_row(
    name: Text,
    class: Class,
    c: char,
    out: &mut Tokens,
) -> Result<Transition, NoMemory>
    ensures { IfOk result
        (Follows (rows.after_system_identifier_row name class c) out.old out.new) }
{
    match class {
        Class::Space => to_doctype(DoctypeState::AfterSystemIdentifier(name), out),
        Class::Greater => emit_doctype(name, false, out),
        Class::InputEnd => finish_doctype(name, true, out),
        _ => again_in_doctype(DoctypeState::Bogus(name, false), out),
    }
}

/// 13.2.5.68 #bogus-doctype-state Bogus DOCTYPE state
fn bogus_doctype_row(
    name: Text,
    force_quirks: bool,
    class: Class,
    c: char,
    out: &mut Tokens,
) -> Result<Transition, NoMemory>
    ensures { IfOk result
        (Follows (rows.bogus_doctype_row name force_quirks class c) out.old out.new) }
{
    match class {
        Class::Greater => emit_doctype(name, force_quirks, out),
        Class::InputEnd => finish_doctype(name, force_quirks, out),
        _ => to_doctype(DoctypeState::Bogus(name, force_quirks), out),
    }
}

//! The processing of tokens: a character, or the end of the input, makes some, and they are
//! processed one by one up to the first stop.

ghost use Rattle.std.specs.Prelude.{◌≡◌, ◌≢◌, ◌<◌, [], ◌∷◌, Bool, length, IfOk, IfSome};
ghost use Rattle.standard.specs.Entities.{Entities};
ghost use Rattle.standard.specs.Foreign.{is_foreign};
ghost use Rattle.standard.specs.Tokenizer.{Reached, read, read_end};
ghost use Rattle.standard.specs.Parser as definition;
ghost use Rattle.standard.specs.Parser.{after_ops, build, build_end, after_all};
ghost use Rattle.parse_machine.specs.Machine.{WentTo, EndedTo, Builds, BuildsLast};

use crate::token::construct;
use builder_state::Builder;
use char_class::class_of;
use entity_table::Table;
use html_types::{
    Finish, Name, Next, NoMemory, RawText, Stop, TextState, TokState, Token, TokenizerSwitch, Word,
};
use std::alloc::Global;
use text_store::Ops;
use tokenizer::Tokenizer;
use tokenizer::reading::is_plain;

// The word of a start tag's name, where the rules speak of it.
fn word_of_tag(token: &Token) -> Option<Word>
    ensures { result ≡ definition.word_of_tag token.now }
{
    match token {
        Token::StartTag(tag) => match &tag.name {
            Name::Known(word) => Some(*word),
            Name::Other(_, _) => None,
        },
        _ => None,
    }
}

// How the tokenizer reads on where a rule switches it.
fn read_as(reading: TokenizerSwitch, token: &Token) -> TokState
    ensures { result ≡ definition.read_as reading token.now }
{
    let last = word_of_tag(token);
    match reading {
        TokenizerSwitch::Rcdata => TokState::Text(TextState::Raw(RawText::Rcdata, last)),
        TokenizerSwitch::Rawtext => TokState::Text(TextState::Raw(RawText::Rawtext, last)),
        TokenizerSwitch::ScriptData => TokState::Text(TextState::Raw(RawText::ScriptData, last)),
        TokenizerSwitch::Plaintext => TokState::Text(TextState::Plaintext),
    }
}

// What became of the first token that waited.
#[derive(Clone, Copy)]
pub(crate) enum Went {
    /// There was none.
    AllUsed,
    /// The next is to be processed.
    On,
    At(Stop),
}

// Processes a token, with others waiting behind it. The tokenizer may then read on in another way.
#[inline]
fn process(
    alloc: Global,
    tokenizer: &mut Tokenizer,
    builder: &mut Builder,
    token: &Token,
    ops: &mut Ops,
) -> Result<Went, NoMemory>
    ensures built { IfOk result
        (λ went. (cr : Bool) → WentTo cr tokenizer.new builder.new ops.new went
        ≡ after_ops ops.old
        (build tokenizer.old.state cr (token.now ∷ tokenizer.old.tokens) builder.old)) }
    ensures waiting { tokenizer.new.tokens ≡ tokenizer.old.tokens }
    ensures some { IfOk result (λ went. went ≢ Went.AllUsed) }
{
    match construct(alloc, builder, token, ops)? {
        Next::SwitchTokenizer(reading) => {
            tokenizer.load(read_as(reading, token));
            Ok(Went::On)
        }
        Next::Script(id) => Ok(Went::At(Stop::Script(id))),
        Next::Deep => Ok(Went::At(Stop::Deep)),
        _ => Ok(Went::On),
    }
}

// Processes the first token that waits.
fn process_first(
    alloc: Global,
    tokenizer: &mut Tokenizer,
    builder: &mut Builder,
    ops: &mut Ops,
) -> Result<Went, NoMemory>
    ensures built { IfOk result
        (λ went. (cr : Bool) → WentTo cr tokenizer.new builder.new ops.new went
        ≡ after_ops ops.old (build tokenizer.old.state cr tokenizer.old.tokens builder.old)) }
    ensures fewer { IfOk result
        (λ went. went ≡ Went.On → length tokenizer.new.tokens < length tokenizer.old.tokens) }
    ensures none { IfOk result (λ went. went ≡ Went.AllUsed → tokenizer.new.tokens ≡ []) }
{
    match tokenizer.pop() {
        None => Ok(Went::AllUsed),
        Some(token) => process(alloc, tokenizer, builder, &token, ops),
    }
}

// Processes the tokens that wait, in order, up to the first stop; those behind it are dropped.
fn build_waiting(
    alloc: Global,
    tokenizer: &mut Tokenizer,
    builder: &mut Builder,
    ops: &mut Ops,
) -> Result<Stop, NoMemory>
    ensures built { IfOk result
        (λ stop. (cr : Bool)
        → Builds cr tokenizer.old builder.old ops.old tokenizer.new builder.new ops.new stop) }
    ensures none_waits { IfOk result (λ _. tokenizer.new.tokens ≡ []) }
{
    'tokens: loop {
        match process_first(alloc, tokenizer, builder, ops)? {
            Went::AllUsed => return Ok(Stop::InputEnd),
            Went::On => {}
            Went::At(stop) => {
                tokenizer.clear(alloc);
                return Ok(stop);
            }
        }
    }
}

// What became of the first of the last tokens.
#[derive(Clone, Copy)]
pub(crate) enum Ended {
    /// The next is to be processed.
    On,
    At(Finish),
}

// Processes one of the last tokens.
fn process_last(
    alloc: Global,
    builder: &mut Builder,
    token: &Token,
    ops: &mut Ops,
) -> Result<Ended, NoMemory>
    ensures { IfOk result
        (λ ended. (cr : Bool) (m : Reached) → EndedTo cr m builder.new ops.new ended
        ≡ after_all ops.old (build_end m.state cr (token.now ∷ m.tokens) builder.old)) }
{
    match construct(alloc, builder, token, ops)? {
        Next::Finished => Ok(Ended::At(Finish::Finished)),
        Next::Deep => Ok(Ended::At(Finish::Deep)),
        _ => Ok(Ended::On),
    }
}

// Processes the first of the last tokens.
fn process_first_of_last(
    alloc: Global,
    tokenizer: &mut Tokenizer,
    builder: &mut Builder,
    ops: &mut Ops,
) -> Result<Ended, NoMemory>
    ensures built { IfOk result
        (λ ended. (cr : Bool) → EndedTo cr tokenizer.new builder.new ops.new ended
        ≡ after_all ops.old (build_end tokenizer.old.state cr tokenizer.old.tokens builder.old)) }
    ensures fewer { IfOk result
        (λ ended. ended ≡ Ended.On → length tokenizer.new.tokens < length tokenizer.old.tokens) }
{
    match tokenizer.pop() {
        None => Ok(Ended::At(Finish::Finished)),
        Some(token) => process_last(alloc, builder, &token, ops),
    }
}

// Processes the last tokens, up to the one at which parsing stops; those behind it are dropped.
fn build_last(
    alloc: Global,
    tokenizer: &mut Tokenizer,
    builder: &mut Builder,
    ops: &mut Ops,
) -> Result<Finish, NoMemory>
    ensures built { IfOk result
        (λ finish. (cr : Bool)
        → BuildsLast cr tokenizer.old builder.old ops.old tokenizer.new builder.new ops.new
        finish) }
    ensures none_waits { IfOk result (λ _. tokenizer.new.tokens ≡ []) }
{
    'tokens: loop {
        match process_first_of_last(alloc, tokenizer, builder, ops)? {
            Ended::On => {}
            Ended::At(finish) => {
                tokenizer.clear(alloc);
                return Ok(finish);
            }
        }
    }
}

// The token of a character that the tokenizer emits as it is, and then stays in its state.
fn plain_token(tokenizer: &Tokenizer, c: char) -> Option<Token>
    ensures { IfSome result
        (λ t. (es : Entities) (foreign : Bool)
        → read es foreign tokenizer.now.state c
        ≡ record { tokens = t ∷ []; state = tokenizer.now.state }) }
{
    if is_plain(tokenizer.state(), class_of(c)) {
        Some(Token::Character(c))
    } else {
        None
    }
}

// Processes the only token that a character makes.
#[inline]
pub(crate) fn process_alone(
    alloc: Global,
    tokenizer: &mut Tokenizer,
    builder: &mut Builder,
    token: &Token,
    ops: &mut Ops,
) -> Result<Stop, NoMemory>
    requires { tokenizer.old.tokens ≡ [] }
    ensures built { IfOk result
        (λ stop. (cr : Bool)
        → Builds cr (record { tokens = token.now ∷ []; state = tokenizer.old.state }) builder.old
        ops.old tokenizer.new builder.new ops.new stop) }
    ensures none_waits { IfOk result (λ _. tokenizer.new.tokens ≡ []) }
{
    match process(alloc, tokenizer, builder, token, ops)? {
        Went::AllUsed => Ok(Stop::InputEnd),
        Went::On => Ok(Stop::InputEnd),
        Went::At(stop) => Ok(stop),
    }
}

// Reads a character, and processes the tokens that it makes.
pub(crate) fn read_and_build(
    alloc: Global,
    table: &Table,
    tokenizer: &mut Tokenizer,
    builder: &mut Builder,
    c: char,
    ops: &mut Ops,
) -> Result<Stop, NoMemory>
    requires { tokenizer.old.tokens ≡ [] }
    ensures built { IfOk result
        (λ stop. (cr : Bool)
        → Builds cr (read table.now (is_foreign builder.old) tokenizer.old.state c) builder.old
        ops.old tokenizer.new builder.new ops.new stop) }
    ensures none_waits { IfOk result (λ _. tokenizer.new.tokens ≡ []) }
{
    match plain_token(tokenizer, c) {
        Some(token) => process_alone(alloc, tokenizer, builder, &token, ops),
        None => {
            tokenizer.read_character(alloc, table, builder.is_foreign(), c)?;
            build_waiting(alloc, tokenizer, builder, ops)
        }
    }
}

// Reads the end of the input, and processes the tokens that it makes.
pub(crate) fn end_and_build(
    alloc: Global,
    table: &Table,
    tokenizer: &mut Tokenizer,
    builder: &mut Builder,
    ops: &mut Ops,
) -> Result<Finish, NoMemory>
    requires { tokenizer.old.tokens ≡ [] }
    ensures built { IfOk result
        (λ finish. (cr : Bool)
        → BuildsLast cr (read_end table.now (is_foreign builder.old) tokenizer.old.state)
        builder.old ops.old tokenizer.new builder.new ops.new finish) }
    ensures none_waits { IfOk result (λ _. tokenizer.new.tokens ≡ []) }
{
    tokenizer.finish(alloc, table, builder.is_foreign())?;
    build_last(alloc, tokenizer, builder, ops)
}

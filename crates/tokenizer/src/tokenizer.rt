//! The tokenizer: its state, and the tokens that it has made and not yet given.

ghost use Rattle.std.specs.Prelude.{◌≡◌, ◌↔◌, ◌≤◌, false, [], ◌∷◌, IfOk, OnOk, IfSome, IfNone};
ghost use Rattle.std.specs.Prelude.{IsTrue};
ghost use Rattle.std.specs.Str.{IsCharBoundary};
ghost use Rattle.standard.specs.Step.{data_state};
ghost use Rattle.standard.specs.Tokenizer.{read, reading, read_end, after_tokens};
ghost use Rattle.tokenizer.specs.Runs.{LeadsTo};
ghost use Rattle.tokenizer.specs.Whole.{has_cr, piece};

use crate::append::append;
use crate::discard::discard;
use crate::reading::{READINGS, add_in_place, settle};
use char_class::class_of;
use entity_table::Table;
use html_types::{Class, NoMemory, TextState, TokState, Token, Tokens, eq_state};
use std::alloc::Global;
use std::marker::Model;
use std::mem;

/// A tokenizer: a contract sees the tokens that it has made and not yet given, and its state. After
/// a call that answers NoMemory it is some tokenizer, of use for nothing but to be dropped.
pub struct Tokenizer {
    waiting: Tokens,
    state: TokState,
}

impl Drop for Tokenizer {
    fn drop(self) {
        let Tokenizer { waiting: _, state } = self;
        discard(state);
    }
}

impl Model for Tokenizer {
    ghost use Rattle.standard.specs.Tokenizer.{Reached};

    ghost Value = { Reached };

    ghost view = { λ t. record { tokens = t.waiting; state = t.state } };
}

impl Tokenizer {
    /// A tokenizer at the start of a page: in the data state, with no tokens.
    pub fn new(alloc: Global) -> Tokenizer
        ensures tokens { result.tokens ≡ [] }
        ensures state { result.state ≡ data_state }
    {
        Tokenizer {
            waiting: Tokens::new(alloc),
            state: TokState::Text(TextState::Data),
        }
    }

    /// The state.
    pub fn state(&self) -> &TokState
        ensures { result.now ≡ self.now.state }
    {
        &self.state
    }

    /// Puts it in a state. Tokens that wait stay.
    pub fn load(&mut self, state: TokState)
        ensures tokens { self.new.tokens ≡ self.old.tokens }
        ensures state { self.new.state ≡ state }
    {
        discard(mem::replace(&mut self.state, state));
    }

    /// Drops the tokens that wait.
    pub fn clear(&mut self, alloc: Global)
        ensures tokens { self.new.tokens ≡ [] }
        ensures state { self.new.state ≡ self.old.state }
    {
        self.waiting = Tokens::new(alloc);
    }

    /// A copy.
    pub fn copy(&self, alloc: Global) -> Result<Tokenizer, NoMemory>
        ensures { IfOk result (λ t. t ≡ self.now) }
    {
        let waiting = self.waiting.copy(alloc)?;
        let state = self.state.copy(alloc)?;
        Ok(Tokenizer { waiting, state })
    }

    /// Whether two tokenizers are the same: their states, and the tokens that wait.
    pub fn same(&self, other: &Tokenizer) -> bool
        ensures { IsTrue result ↔ (self.now ≡ other.now) }
    {
        self.waiting.same(&other.waiting) && eq_state(&self.state, &other.state)
    }

    /// Reads a character, with the named character references of `table`; `foreign` says that the
    /// adjusted current node isn't an HTML element. The tokens that it makes wait behind those that
    /// wait already.
    pub fn read_character(
        &mut self,
        alloc: Global,
        table: &Table,
        foreign: bool,
        c: char,
    ) -> Result<(), NoMemory>
        ensures { OnOk result
            (self.new ≡ after_tokens self.old.tokens (read table.now foreign self.old.state c)) }
    {
        let class = class_of(c);
        if add_in_place(&mut self.state, class, c)? {
            return Ok(());
        }
        self.settle_in(alloc, table, foreign, class, c)
    }

    /// Reads the end of the input, with the named character references of `table`; `foreign` says
    /// that the adjusted current node isn't an HTML element. The tokens that it makes wait behind
    /// those that wait already.
    pub fn finish(&mut self, alloc: Global, table: &Table, foreign: bool) -> Result<(), NoMemory>
        ensures { OnOk result
            (self.new ≡ after_tokens self.old.tokens (read_end table.now foreign self.old.state)) }
    {
        self.settle_in(alloc, table, foreign, Class::InputEnd, '\0')
    }

    /// Takes the characters from a place of a text on that the state only adds to what it holds, or
    /// drops, and gives the place behind them. It may end before all of them are taken. A CR ends
    /// them.
    pub fn append(&mut self, text: &str, from: usize) -> Result<usize, NoMemory>
        requires { IsCharBoundary text.now from }
        ensures boundary { IfOk result (λ end. IsCharBoundary text.now end) }
        ensures onward { IfOk result (λ end. from ≤ end) }
        ensures led { IfOk result
            (λ end. LeadsTo self.old.state (piece text.now from end) self.new.state) }
        ensures no_cr { IfOk result (λ end. has_cr (piece text.now from end) ≡ false) }
        ensures waiting { self.new.tokens ≡ self.old.tokens }
    {
        append(&mut self.state, text, from)
    }

    /// Takes the first of the tokens that wait.
    pub fn pop(&mut self) -> Option<Token>
        ensures some { IfSome result (λ t. self.old.tokens ≡ t ∷ self.new.tokens) }
        ensures none { IfNone result (self.old.tokens ≡ []) }
        ensures empty { IfNone result (self.new.tokens ≡ []) }
        ensures state { self.new.state ≡ self.old.state }
    {
        self.waiting.pop()
    }

    // Reads a character of this class, or the end, by the rows.
    fn settle_in(
        &mut self,
        alloc: Global,
        table: &Table,
        foreign: bool,
        class: Class,
        c: char,
    ) -> Result<(), NoMemory>
        ensures { OnOk result
            (self.new
            ≡ after_tokens self.old.tokens (reading table.now foreign self.old.state class c)) }
    {
        let state = mem::replace(&mut self.state, TokState::Text(TextState::Data));
        let now = settle(
            alloc,
            table,
            foreign,
            READINGS,
            state,
            class,
            c,
            &mut self.waiting,
        )?;
        discard(mem::replace(&mut self.state, now));
        Ok(())
    }
}

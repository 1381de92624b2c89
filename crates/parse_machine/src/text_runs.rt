//! What is taken of a text at once, and not character by character: runs of characters, references,
//! tags, and the end of raw text.

ghost use Rattle.std.specs.Prelude.{◌≡◌, ◌==◌, ◌<◌, ◌≤◌, ◌+◌, ◌++◌, [], ◌∷◌, List, length, take};
ghost use Rattle.std.specs.Prelude.{IfOk, IfSome, IsTrue};
ghost use Rattle.std.specs.Str.{chars, IsCharBoundary};
ghost use Rattle.html_types.specs.declared.operation.Op.{Op};
ghost use Rattle.standard.specs.Entities.{Entities};
ghost use Rattle.standard.specs.Parser.{took, after_ops, build};
ghost use Rattle.builder_state.specs.Texts.{TakesText, behind_text};
ghost use Rattle.standard.specs.Instructions.{here, texts};
ghost use Rattle.std.specs.List.{list_any};
ghost use Rattle.entity_table.specs.View.{characters_in};
ghost use Rattle.tokenizer.specs.Reference.{found_characters, open_characters};
ghost use Rattle.parse_machine.specs.Runs.{ArePlain, reads_runs as state_reads_runs};
ghost use Rattle.parse_machine.specs.Runs.{reads_raw as state_reads_raw, Ahead, Inserts, ReadsTags};
ghost use Rattle.parse_machine.specs.Runs.{Takes, TakesRuns, TakesRun};

use crate::machine::{Machine, Ran};
use crate::process::process_alone;
use char_class::first_mark;
use entity_table::{Characters, Table};
use html_types::{NoMemory, RawText, Stop, TextState, TokState, Token};
use std::alloc::Global;
use text_store::Ops;
use tokenizer::raw::{raw_end, raw_less};
use tokenizer::reference::{OpenReference, open_reference, whole_reference};
use tokenizer::whole::whole_token;

// Whether the state is that of a text that is read up to its end tag.
fn reads_raw(state: &TokState) -> bool
    ensures { result ≡ state_reads_raw state.now }
{
    match state {
        TokState::Text(TextState::Raw(raw, _)) => matches!(
            raw,
            RawText::Rcdata | RawText::Rawtext | RawText::ScriptData
        ),
        _ => false,
    }
}

// Whether the state emits characters other than NUL, CR, `&` and `<` as they are, and stays.
fn reads_runs(state: &TokState) -> bool
    ensures { result ≡ state_reads_runs state.now }
{
    match state {
        TokState::Text(TextState::Data) => true,
        TokState::Text(TextState::Raw(raw, _)) => matches!(
            raw,
            RawText::Rcdata | RawText::Rawtext | RawText::ScriptData
        ),
        _ => false,
    }
}

// The characters of a text from a place on, up to the first NUL, CR, `&` or `<`.
fn plain_run(text: &str, from: usize) -> &str
    requires { IsCharBoundary text.now from }
    ensures plain { ArePlain (chars result.now) }
    ensures boundary { IsCharBoundary text.now (from + length result.now) }
    ensures front { chars (take (from + length result.now) text.now) ≡ chars (take from text.now)
        ++ chars result.now }
{
    let rest = &text[from..];
    &rest[..first_mark(rest.as_bytes())]
}

fn has_nul(characters: Characters) -> bool
    ensures { result ≡ list_any (λ c. c == 0) (characters_in characters) }
{
    characters.first == '\0' || characters.second == Some('\0')
}

// Whether a NUL is among the characters that were found.
fn some_nul(found: Option<Characters>) -> bool
    ensures { result ≡ list_any (λ c. c == 0) (found_characters found) }
{
    match found {
        None => false,
        Some(characters) => has_nul(characters),
    }
}

impl Machine {
    // Whether characters other than NUL, CR, `&` and `<` are inserted as they are. Where the answer
    // is no, they may be all the same.
    fn takes_runs(&self) -> bool
        ensures { IsTrue result → TakesRuns self.now }
    {
        reads_runs(self.tokenizer.state()) && !self.after_cr && self.builder.takes_text()
    }

    // Inserts such characters.
    fn insert_run(&mut self, run: &str, ops: &mut Ops) -> Result<(), NoMemory>
        ensures inserted { IfOk result
            (λ _. ops.new ≡ ops.old ++ texts (here self.old.open_state) (chars run.now)) }
        ensures done { IfOk result
            (λ _. self.new
            ≡ record self.old { open_state = behind_text (chars run.now) self.old.open_state }) }
    {
        self.builder.insert_body_text(run, ops)
    }

    // Inserts what a reference stands for, as it is.
    #[tactic(auto, using(std::proofs::lemmas::Grind::common_steps, crate::proofs::Runs::behind_second))]
    fn insert_characters(
        &mut self,
        alloc: Global,
        characters: Characters,
        ops: &mut Ops,
    ) -> Result<(), NoMemory>
        ensures inserted { IfOk result
            (λ _. ops.new ≡ ops.old
            ++ texts (here self.old.open_state) (characters_in characters)) }
        ensures done { IfOk result
            (λ _. self.new
            ≡ record self.old
            { open_state = behind_text (characters_in characters) self.old.open_state }) }
    {
        self.builder.insert_body_one(alloc, characters.first, ops)?;
        match characters.second {
            None => Ok(()),
            Some(second) => self.builder.insert_body_one(alloc, second, ops),
        }
    }

    // Takes the characters from a place on that the tokenizer only adds to what it holds, or drops,
    // and gives the place behind them.
    fn append_run(&mut self, text: &str, from: usize) -> Result<usize, NoMemory>
        requires { IsCharBoundary text.now from }
        ensures onward { IfOk result (λ end. from ≤ end) }
        ensures boundary { IfOk result (λ end. IsCharBoundary text.now end) }
        ensures parsed { IfOk result
            (λ end. (ops : List Op) → TakesRun text.now from end self.old ops self.new ops) }
    {
        if self.after_cr {
            return Ok(from);
        }
        self.tokenizer.append(text, from)
    }

    // Takes the characters from a place on that are inserted as they are, or that the tokenizer
    // only adds to what it holds, and gives the place behind them.
    pub(crate) fn take_run(
        &mut self,
        text: &str,
        from: usize,
        ops: &mut Ops,
    ) -> Result<usize, NoMemory>
        requires { IsCharBoundary text.now from }
        ensures onward { IfOk result (λ end. from ≤ end) }
        ensures boundary { IfOk result (λ end. IsCharBoundary text.now end) }
        ensures parsed { IfOk result
            (λ end. TakesRun text.now from end self.old ops.old self.new ops.new) }
    {
        if !self.takes_runs() {
            return self.append_run(text, from);
        }
        let run = plain_run(text, from);
        if run.is_empty() {
            return Ok(from);
        }
        self.insert_run(run, ops)?;
        Ok(from + run.len())
    }

    // Whether the parser is in the data state, where a tag that stands whole in the text may be
    // read at once.
    fn reads_tags(&self) -> bool
        ensures { IsTrue result → ReadsTags self.now }
    {
        !self.after_cr && matches!(self.tokenizer.state(), TokState::Text(TextState::Data))
    }

    // Processes a token that the tokenizer makes of some characters, and stays in its state.
    #[inline(always)]
    fn take_token(&mut self, alloc: Global, token: &Token, ops: &mut Ops) -> Result<Stop, NoMemory>
        ensures { IfOk result
            (λ stop. after_ops ops.old
            (build self.old.tokenizer self.old.after_cr (token.now ∷ []) self.old.open_state)
            ≡ took ops.new self.new stop) }
    {
        match process_alone(alloc, &mut self.tokenizer, &mut self.builder, token, ops) {
            Ok(stop) => Ok(stop),
            Err(error) => {
                self.tokenizer.clear(alloc);
                Err(error)
            }
        }
    }

    // Takes the end tag that ends the text of the state, where it stands whole at a place.
    fn take_raw_end(
        &mut self,
        alloc: Global,
        text: &str,
        from: usize,
        ops: &mut Ops,
    ) -> Result<Option<Ran>, NoMemory>
        requires { IsCharBoundary text.now from }
        ensures boundary { IfOk result (λ o. IfSome o (λ ran. IsCharBoundary text.now ran.used)) }
        ensures onward { IfOk result (λ o. IfSome o (λ ran. from < ran.used)) }
        ensures parsed { IfOk result
            (λ o. IfSome o
            (λ ran. (es : Entities)
            → Takes es text.now from ran self.old ops.old self.new ops.new)) }
        ensures none { IfOk result (λ o. o ≡ None → self.new ≡ self.old) }
        ensures none_added { IfOk result (λ o. o ≡ None → ops.new ≡ ops.old) }
    {
        if self.after_cr {
            return Ok(None);
        }
        let Some(whole) = raw_end(alloc, self.tokenizer.state(), text, from) else {
            return Ok(None);
        };
        self.tokenizer.load(TokState::Text(TextState::Data));
        let stop = self.take_token(alloc, &whole.token, ops)?;
        Ok(Some(Ran {
            stop,
            used: whole.end,
        }))
    }

    // Takes a `<` in such a text that begins nothing, with the character behind it.
    fn take_raw_less(
        &mut self,
        text: &str,
        from: usize,
        ops: &mut Ops,
    ) -> Result<Option<Ran>, NoMemory>
        requires { IsCharBoundary text.now from }
        ensures boundary { IfOk result (λ o. IfSome o (λ ran. IsCharBoundary text.now ran.used)) }
        ensures onward { IfOk result (λ o. IfSome o (λ ran. from < ran.used)) }
        ensures parsed { IfOk result
            (λ o. IfSome o
            (λ ran. (es : Entities)
            → Takes es text.now from ran self.old ops.old self.new ops.new)) }
        ensures none { IfOk result (λ o. o ≡ None → self.new ≡ self.old) }
        ensures none_added { IfOk result (λ o. o ≡ None → ops.new ≡ ops.old) }
    {
        if !self.takes_runs() || !reads_raw(self.tokenizer.state()) {
            return Ok(None);
        }
        let Some(used) = raw_less(text, from) else {
            return Ok(None);
        };
        self.insert_run(&text[from..used], ops)?;
        Ok(Some(Ran {
            stop: Stop::InputEnd,
            used,
        }))
    }

    // Takes what begins at a place with a `<` in a text that is read up to its end tag.
    #[inline(never)]
    fn take_raw(
        &mut self,
        alloc: Global,
        text: &str,
        from: usize,
        ops: &mut Ops,
    ) -> Result<Option<Ran>, NoMemory>
        requires { IsCharBoundary text.now from }
        ensures boundary { IfOk result (λ o. IfSome o (λ ran. IsCharBoundary text.now ran.used)) }
        ensures onward { IfOk result (λ o. IfSome o (λ ran. from < ran.used)) }
        ensures parsed { IfOk result
            (λ o. IfSome o
            (λ ran. (es : Entities)
            → Takes es text.now from ran self.old ops.old self.new ops.new)) }
        ensures none { IfOk result (λ o. o ≡ None → self.new ≡ self.old) }
        ensures none_added { IfOk result (λ o. o ≡ None → ops.new ≡ ops.old) }
    {
        match self.take_raw_end(alloc, text, from, ops)? {
            Some(ran) => Ok(Some(ran)),
            None => self.take_raw_less(text, from, ops),
        }
    }

    // Takes the tag or the reference that begins at a place with a character, where it is read at
    // once.
    pub(crate) fn take_tag(
        &mut self,
        alloc: Global,
        table: &Table,
        text: &str,
        from: usize,
        c: char,
        ops: &mut Ops,
    ) -> Result<Option<Ran>, NoMemory>
        requires { IsCharBoundary text.now from }
        ensures boundary { IfOk result (λ o. IfSome o (λ ran. IsCharBoundary text.now ran.used)) }
        ensures onward { IfOk result (λ o. IfSome o (λ ran. from < ran.used)) }
        ensures parsed { IfOk result
            (λ o. IfSome o
            (λ ran. Takes table.now text.now from ran self.old ops.old self.new ops.new)) }
        ensures none { IfOk result (λ o. o ≡ None → self.new ≡ self.old) }
        ensures none_added { IfOk result (λ o. o ≡ None → ops.new ≡ ops.old) }
    {
        if c != '<' && c != '&' {
            return Ok(None);
        }
        if !self.reads_tags() {
            return self.take_raw(alloc, text, from, ops);
        }
        let Some(whole) = whole_token(alloc, table, text, from)? else {
            return Ok(None);
        };
        let stop = self.take_token(alloc, &whole.token, ops)?;
        Ok(Some(Ran {
            stop,
            used: whole.end,
        }))
    }

    // Inserts the characters for which such a reference stands.
    #[tactic(auto, using(std::proofs::lemmas::Grind::common_steps, crate::proofs::References::behind_both))]
    fn insert_open(
        &mut self,
        alloc: Global,
        reference: OpenReference<'_>,
        ops: &mut Ops,
    ) -> Result<(), NoMemory>
        ensures inserted { IfOk result
            (λ _. ops.new ≡ ops.old
            ++ texts (here self.old.open_state) (open_characters reference.entry)) }
        ensures done { IfOk result
            (λ _. self.new
            ≡ record self.old
            { open_state = behind_text (open_characters reference.entry) self.old.open_state }) }
    {
        match reference.characters {
            None => self.insert_run(reference.rest, ops),
            Some(characters) => {
                self.insert_characters(alloc, characters, ops)?;
                self.insert_run(reference.rest, ops)
            }
        }
    }

    // Takes the named reference that begins at a place, up to a character with which no name goes
    // on, and gives that place.
    #[inline(never)]
    fn take_open_reference(
        &mut self,
        alloc: Global,
        table: &Table,
        text: &str,
        from: usize,
        ops: &mut Ops,
    ) -> Result<Option<usize>, NoMemory>
        requires boundary { IsCharBoundary text.now from }
        requires reads { ReadsTags self.old }
        requires takes { TakesText self.old.open_state }
        ensures boundary { IfOk result (λ o. IfSome o (λ end. IsCharBoundary text.now end)) }
        ensures onward { IfOk result (λ o. IfSome o (λ end. from < end)) }
        ensures within { IfOk result (λ o. IfSome o (λ end. end < length text.now)) }
        ensures parsed { IfOk result
            (λ o. IfSome o
            (λ end. Inserts table.now text.now from end self.old ops.old self.new ops.new)) }
        ensures none { IfOk result (λ o. o ≡ None → self.new ≡ self.old) }
        ensures none_added { IfOk result (λ o. o ≡ None → ops.new ≡ ops.old) }
    {
        let Some(reference) = open_reference(table, text, from) else {
            return Ok(None);
        };
        if some_nul(reference.characters) {
            return Ok(None);
        }
        self.insert_open(alloc, reference, ops)?;
        Ok(Some(reference.end))
    }

    // Takes the named reference that begins at a place, where it is looked up at once and inserted
    // as it is, and gives the place behind it.
    fn take_reference(
        &mut self,
        alloc: Global,
        table: &Table,
        text: &str,
        from: usize,
        ops: &mut Ops,
    ) -> Result<Option<usize>, NoMemory>
        requires { IsCharBoundary text.now from }
        ensures boundary { IfOk result (λ o. IfSome o (λ end. IsCharBoundary text.now end)) }
        ensures onward { IfOk result (λ o. IfSome o (λ end. from < end)) }
        ensures within { IfOk result (λ o. IfSome o (λ end. end < length text.now)) }
        ensures parsed { IfOk result
            (λ o. IfSome o
            (λ end. Inserts table.now text.now from end self.old ops.old self.new ops.new)) }
        ensures none { IfOk result (λ o. o ≡ None → self.new ≡ self.old) }
        ensures none_added { IfOk result (λ o. o ≡ None → ops.new ≡ ops.old) }
    {
        if text.as_bytes().get(from) != Some(&b'&')
            || !self.reads_tags()
            || !self.builder.takes_text()
        {
            return Ok(None);
        }
        let Some(reference) = whole_reference(table, text, from) else {
            return self.take_open_reference(alloc, table, text, from, ops);
        };
        let characters = reference.characters;
        if has_nul(characters) {
            return Ok(None);
        }
        self.insert_characters(alloc, characters, ops)?;
        Ok(Some(reference.end))
    }

    // Takes all such references from a place on, each with some character behind it, and gives the
    // place behind the last.
    pub(crate) fn take_references(
        &mut self,
        alloc: Global,
        table: &Table,
        text: &str,
        from: usize,
        ops: &mut Ops,
    ) -> Result<usize, NoMemory>
        requires { IsCharBoundary text.now from }
        ensures boundary { IfOk result (λ end. IsCharBoundary text.now end) }
        ensures onward { IfOk result (λ end. from ≤ end) }
        ensures ahead { IfOk result
            (λ end. Ahead table.now text.now from end self.old ops.old self.new ops.new) }
    {
        let mut end = from;
        while let Some(behind) = self.take_reference(alloc, table, text, end, ops)? {
            end = behind;
        }
        Ok(end)
    }
}

//! The builder of a tree: the open state with at most 512 open elements.

ghost use Rattle.std.specs.Prelude.{◌≡◌, ◌≤◌, ◌↔◌, ◌++◌, ◌∷◌, [], List, length, IsTrue, IsFalse};
ghost use Rattle.std.specs.Prelude.{IfOk, true, false};
ghost use Rattle.std.specs.Str.{chars};
ghost use Rattle.standard.specs.Instructions.{config, on, here, reconstruct, run, texts};
ghost use Rattle.standard.specs.Instructions.{body_character};
ghost use Rattle.standard.specs.Foreign as foreign;
ghost use Rattle.standard.specs.Formatting.{lost, kept};
ghost use Rattle.standard.specs.Adoption.{adopted, adopt};
ghost use Rattle.html_types.specs.declared.operation.Op.{Op};
ghost use Rattle.standard.specs.Rules.{answer, answer_of, rules_for as rules_of};
ghost use Rattle.standard.specs.Parser.{opening};
ghost use Rattle.standard.specs.Fragment.{fragment_opening};
ghost use Rattle.builder_state.specs.Push.{opened};
ghost use Rattle.builder_state.specs.Texts.{takes_characters as mode_takes_characters};
ghost use Rattle.builder_state.specs.Texts.{reopens as mode_reopens, TakesText, behind_text};

use crate::at_once::{answer_row, asked};
use crate::closing::close_latest;
use crate::foreign::{is_foreign, rules_for, text_rules};
use crate::formatting::none_lost;
use crate::fragment::{copy_context, fragment_state, same_context};
use crate::insert::{LIMIT, place_now, reopen_lost};
use crate::machine::run_row;
use crate::pending::{insert_body_character, insert_body_one, insert_body_text};
use crate::weight::is_light;
use html_types::{
    ActiveFormatting, Context, Flow, Instr, Mode, Modes, Next, NoMemory, NodeId, Open, OpenElement,
    Place, Stack, Text, Token, Word,
};
use std::alloc::Global;
use std::marker::Model;
use std::mem;
use tag_sets::is_the;
use text_store::Ops;

/// Whether an element was pushed.
#[derive(Clone, Copy, PartialEq, Eq)]
pub enum Pushed {
    Done,
    /// 512 elements are open, and nothing is changed.
    Deep,
}

/// What the adoption agency algorithm (13.2.6.4.7 #parsing-main-inbody) came to.
#[derive(Clone, Copy)]
pub enum Adopted {
    Done,
    /// At a turn no entry behind the last marker has the name: the token goes by "any other end
    /// tag".
    Other,
}

/// The open state of tree construction (13.2.4 #parse-state). At most 512 elements are open. Where
/// one of its calls answers NoMemory, nothing more is known of it.
#[derive(Drop)]
pub struct Builder {
    state: Open,
}

impl Model for Builder {
    ghost use Rattle.std.specs.Prelude.{◌≤◌, length};
    ghost use Rattle.html_types.specs.declared.open.Open.{Open};

    ghost Value = { Open };

    ghost view = { λ b. b.state };

    ghost invariant = { λ b. length b.state.stack ≤ 512 };
}

impl Builder {
    /// The open state at the beginning of a page, whose ids are of that realm. It takes no memory.
    pub fn new(alloc: Global, realm: u32) -> Builder
        ensures { result ≡ opening realm }
    {
        Builder {
            state: first_state(alloc, realm),
        }
    }

    /// The open state at the beginning of a fragment (13.4 #parsing-html-fragments), whose ids are
    /// of that realm. The caller makes an html element under the realm's first id and, where the
    /// context is in a form, a form element under its second.
    pub fn fragment(alloc: Global, context: Context, realm: u32) -> Result<Builder, NoMemory>
        ensures { IfOk result (λ b. b ≡ fragment_opening context realm) }
    {
        let state = fragment_state(alloc, context, realm)?;
        Ok(Builder { state })
    }

    /// Whether the document is in quirks mode.
    pub fn is_quirky(&self) -> bool
        ensures { result ≡ self.now.quirks }
    {
        self.state.quirks
    }

    /// Takes the open state out, for a change that no row makes. The builder is as at the beginning
    /// of a page then.
    pub fn take(&mut self, alloc: Global) -> Open
        ensures taken { result ≡ self.old }
        ensures bounded { length result.stack ≤ 512 }
    {
        mem::replace(&mut self.state, first_state(alloc, 0))
    }

    /// Puts an open state in.
    pub fn put(&mut self, state: Open)
        requires { length state.stack ≤ 512 }
        ensures { self.new ≡ state }
    {
        self.state = state;
    }

    /// Does a row's instructions for a token, and adds the operations that they ask for. It also
    /// answers NoMemory where no next id is left.
    pub fn run(
        &mut self,
        alloc: Global,
        program: &[Instr],
        token: &Token,
        ops: &mut Ops,
    ) -> Result<Flow, NoMemory>
        ensures { IfOk result
            (λ flow. config self.new ops.new flow
            ≡ run token.now (on self.old ops.old) program.now) }
    {
        run_row(alloc, &mut self.state, program, token, ops)
    }

    /// Does the same, and says what is asked of the caller then.
    pub fn answer_row(
        &mut self,
        alloc: Global,
        program: &[Instr],
        token: &Token,
        ops: &mut Ops,
    ) -> Result<Next, NoMemory>
        ensures { IfOk result
            (λ next. answer self.new ops.new next
            ≡ answer_of (run token.now (on self.old ops.old) program.now)) }
    {
        answer_row(alloc, &mut self.state, program, token, ops)
    }

    /// Inserts a character by the rules of "in body" (13.2.6.4.7 #parsing-main-inbody), which are
    /// the same for each character but U+0000, and says what is asked of the caller then.
    pub fn insert_body_character(
        &mut self,
        alloc: Global,
        c: char,
        ops: &mut Ops,
    ) -> Result<Next, NoMemory>
        ensures { IfOk result
            (λ next. answer self.new ops.new next ≡ answer_of (body_character c self.old ops.old)) }
    {
        let flow = insert_body_character(alloc, &mut self.state, c, ops)?;
        Ok(asked(flow))
    }

    /// Whether a text's characters are inserted as they are. Where the answer is no, they may be
    /// all the same.
    pub fn takes_text(&self) -> bool
        ensures { IsTrue result → TakesText self.now }
    {
        let rules = text_rules(&self.state);
        takes_characters(rules)
            && !self.state.skip_line_feed
            && !self.state.foster
            && reopens_none(rules, &self.state)
    }

    /// Inserts a text's characters where there is nothing to reopen: by the rules of "in body"
    /// (13.2.6.4.7 #parsing-main-inbody), or as those of "text", of "in select" and for foreign
    /// content do (13.2.6.4.8 #parsing-main-incdata, 13.2.6.4.16 #parsing-main-inselect,
    /// 13.2.6.5 #parsing-main-inforeign).
    pub fn insert_body_text(&mut self, text: &str, ops: &mut Ops) -> Result<(), NoMemory>
        ensures inserted { IfOk result
            (λ _. ops.new ≡ ops.old ++ texts (here self.old) (chars text.now)) }
        ensures done { IfOk result (λ _. self.new ≡ behind_text (chars text.now) self.old) }
    {
        insert_body_text(&mut self.state, text, ops)
    }

    /// Inserts a character in the same way.
    pub fn insert_body_one(&mut self, alloc: Global, c: char, ops: &mut Ops) -> Result<(), NoMemory>
        ensures inserted { IfOk result (λ _. ops.new ≡ ops.old ++ texts (here self.old) (c ∷ [])) }
        ensures done { IfOk result (λ _. self.new ≡ behind_text (c ∷ []) self.old) }
    {
        insert_body_one(alloc, &mut self.state, c, ops)
    }

    /// The adoption agency algorithm (13.2.6.4.7 #parsing-main-inbody) for an end tag of that name,
    /// where it only pops the current node and takes its entry off, as at nearly each such end tag:
    /// the current node is the element of the latest entry, which has the name. Else nothing
    /// changes.
    pub fn close_latest(&mut self, word: Word) -> bool
        ensures closed { IsTrue result → (o : List Op)
            → adopted self.new o false ≡ adopt word self.old o }
        ensures kept { IsFalse result → self.new ≡ self.old }
    {
        close_latest(&mut self.state, word)
    }

    /// Reconstructs the active formatting elements
    /// (13.2.4.3 #the-list-of-active-formatting-elements).
    pub fn reconstruct(&mut self, alloc: Global, ops: &mut Ops) -> Result<Flow, NoMemory>
        ensures { IfOk result
            (λ flow. config self.new ops.new flow ≡ reconstruct self.old ops.old) }
    {
        reopen_lost(alloc, &mut self.state, ops)
    }

    /// Pushes an element that has its id already.
    pub fn push(&mut self, element: OpenElement) -> Result<Pushed, NoMemory>
        ensures { IfOk result (λ pushed. (self.new, pushed) ≡ opened element self.old) }
    {
        if self.state.stack.len() >= LIMIT {
            return Ok(Pushed::Deep);
        }
        self.state.stack.push(element)?;
        Ok(Pushed::Done)
    }

    /// The appropriate place for inserting a node (13.2.6.1 #creating-and-inserting-nodes).
    pub fn place(&self) -> Place
        ensures { result ≡ here self.now }
    {
        place_now(&self.state)
    }

    /// The insertion mode.
    pub fn mode(&self) -> Mode
        ensures { result ≡ self.now.mode }
    {
        self.state.mode
    }

    /// The rules that a token goes by (13.2.6 #tree-construction): those of the insertion mode, or
    /// those for foreign content.
    pub fn rules_for(&self, token: &Token) -> Mode
        ensures { result ≡ rules_of token.now self.now }
    {
        rules_for(&self.state, token)
    }

    /// Whether the adjusted current node (13.2.4.2 #the-stack-of-open-elements) is an element of
    /// MathML or SVG.
    pub fn is_foreign(&self) -> bool
        ensures { result ≡ foreign.is_foreign self.now }
    {
        is_foreign(&self.state)
    }

    /// Whether the next token is left out where it is a line feed; no later token is then.
    pub fn take_skip(&mut self) -> bool
        ensures was { result ≡ self.old.skip_line_feed }
        ensures cleared { self.new ≡ record self.old { skip_line_feed = false } }
    {
        let was = self.state.skip_line_feed;
        self.state.skip_line_feed = false;
        was
    }

    /// Foster parenting is off.
    pub fn stop_fostering(&mut self)
        ensures { self.new ≡ record self.old { foster = false } }
    {
        self.state.foster = false;
    }

    /// The id of the next element that is made.
    pub fn next_id(&self) -> NodeId
        ensures { result ≡ self.now.next }
    {
        self.state.next
    }

    /// The elements that are made from now on have the ids of that realm, from its first on.
    pub fn renew(&mut self, realm: u32)
        ensures { self.new ≡ record self.old { next = record { realm = realm; n = 0 } } }
    {
        self.state.next = NodeId { realm, n: 0 };
    }

    /// Whether a copy takes little time. It is a hint: no contract speaks of it.
    pub fn is_light(&self) -> bool {
        is_light(&self.state)
    }

    /// Shares the entries of its lists, so that the next copies are cheap.
    pub fn share(&mut self, alloc: Global) -> Result<(), NoMemory>
        ensures { self.new ≡ self.old }
    {
        self.state.stack.share(alloc)?;
        self.state.formats.share(alloc)?;
        Ok(())
    }

    /// A copy. It copies no more than 16 entries of each list, where they were shared just before.
    pub fn copy(&self, alloc: Global) -> Result<Builder, NoMemory>
        ensures { IfOk result (λ b. b ≡ self.now) }
    {
        let stack = self.state.stack.copy(alloc)?;
        let formats = self.state.formats.copy(alloc)?;
        let template_modes = self.state.template_modes.copy(alloc)?;
        let pending_text = self.state.pending_text.copy(alloc)?;
        let context = copy_context(&self.state.context)?;
        Ok(Builder {
            state: Open {
                stack,
                formats,
                head: self.state.head,
                form: self.state.form,
                mode: self.state.mode,
                original: self.state.original,
                template_modes,
                pending_text,
                frameset_ok: self.state.frameset_ok,
                quirks: self.state.quirks,
                skip_line_feed: self.state.skip_line_feed,
                foster: self.state.foster,
                next: self.state.next,
                context,
            },
        })
    }

    /// Whether two states are the same, the next id aside.
    pub fn same(&self, other: &Builder) -> bool
        ensures { IsTrue result ↔ (record self.now { next = other.now.next } ≡ other.now) }
    {
        self.state.stack.same(&other.state.stack)
            && self.state.formats.same(&other.state.formats)
            && self.state.template_modes.same(&other.state.template_modes)
            && self.state.pending_text.same(&other.state.pending_text)
            && same_pointers(&self.state, &other.state)
            && same_modes(&self.state, &other.state)
            && same_flags(&self.state, &other.state)
            && same_context(&self.state.context, &other.state.context)
    }
}

/// The open state at the beginning of a page.
fn first_state(alloc: Global, realm: u32) -> Open
    ensures { result ≡ opening realm }
{
    Open {
        stack: Stack::new(alloc),
        formats: ActiveFormatting::new(alloc),
        head: None,
        form: None,
        mode: Mode::Initial,
        original: None,
        template_modes: Modes::new(alloc),
        pending_text: Text::new(alloc),
        frameset_ok: true,
        quirks: false,
        skip_line_feed: false,
        foster: false,
        next: NodeId { realm, n: 0 },
        context: None,
    }
}

/// Whether the rules send characters to those of "in body", or insert them in any case.
fn takes_characters(rules: Mode) -> bool
    ensures { result ≡ mode_takes_characters rules }
{
    matches!(
        &rules,
        Mode::InBody
            | Mode::InText
            | Mode::InCaption
            | Mode::InCell
            | Mode::InSelect
            | Mode::InSelectInTable
            | Mode::InTemplate
            | Mode::InForeign
    )
}

/// Whether a character reopens the formatting elements that were lost, by these rules.
fn reopens(rules: Mode) -> bool
    ensures { result ≡ mode_reopens rules }
{
    !matches!(
        &rules,
        Mode::InText | Mode::InSelect | Mode::InSelectInTable | Mode::InForeign
    )
}

/// Whether no character reopens a formatting element, by these rules.
fn reopens_none(rules: Mode, state: &Open) -> bool
    ensures lost { IsTrue result → mode_reopens rules ≡ true
        → lost state.now.stack state.now.formats ≡ [] }
    ensures kept { IsTrue result → mode_reopens rules ≡ true
        → kept state.now.stack state.now.formats ≡ state.now.formats }
{
    !reopens(rules) || none_lost(&state.formats, &state.stack)
}

/// Whether the element pointers are the same.
fn same_pointers(a: &Open, b: &Open) -> bool
    ensures { IsTrue result ↔ ((a.now.head ≡ b.now.head) × (a.now.form ≡ b.now.form)) }
{
    a.head == b.head && a.form == b.form
}

/// Whether the modes are the same.
fn same_modes(a: &Open, b: &Open) -> bool
    ensures { IsTrue result ↔ ((a.now.mode ≡ b.now.mode) × (a.now.original ≡ b.now.original)) }
{
    a.mode == b.mode && a.original == b.original
}

/// Whether the flags are the same.
fn same_flags(a: &Open, b: &Open) -> bool
    ensures { IsTrue result
        ↔ ((a.now.frameset_ok ≡ b.now.frameset_ok) × (a.now.quirks ≡ b.now.quirks)
        × (a.now.skip_line_feed ≡ b.now.skip_line_feed) × (a.now.foster ≡ b.now.foster)) }
{
    a.frameset_ok == b.frameset_ok
        && a.quirks == b.quirks
        && a.skip_line_feed == b.skip_line_feed
        && a.foster == b.foster
}

// A page of a batch, from its bytes to its text.
ghost use Rattle.std.specs.Prelude.{◌≡◌, [], IfOk, IfSome, None, Some};
ghost use Rattle.std.specs.Option.{option_map};
ghost use Rattle.core_definitions.specs.Desk.{done};
ghost use Rattle.page_turns.specs.Given.{got};
ghost use Rattle.page_turns.specs.Scripts.{Met};
ghost use Rattle.parse_machine.specs.Ends.{result_of};
ghost use Rattle.page_batch.specs.Going.{AreOf, IsGoing, StopsAt};
ghost use Rattle.page_batch.specs.Slots.{IsStage, GoesOn, NextOf, AwaitsNew, HasPart, used_in};
ghost use Rattle.page_batch.specs.Slots.{awaited_in};
ghost use Rattle.page_batch.specs.Reading.{given_in};

use crate::going::{Going, Part, Stop, begin, let_go, part_of, run_on};
use crate::read::{PageBytes, PageFile};
use crate::table::ScriptTable;
use core_pair::Pair;
use entity_table::Table;
use html_types::{NoMemory, Text};
use page_turns::End;
use speculation::InForce;
use std::alloc::Global;
use std::marker::Model;
use std::mem;
use std::snapshot::Snapshot;

/// How far a page is.
#[derive(Drop)]
pub(crate) enum Stage<E: InForce> {
    /// It is read.
    Unread(PageBytes),
    /// It awaits a script.
    Waits(Going<E>),
    /// It is over: all but its text is given back.
    Over(Part),
    /// Memory ran out.
    Spent,
}

/// A page of a batch.
#[derive(Drop)]
pub(crate) struct Slot<E: InForce> {
    // What was read of it, for contracts alone.
    file: Snapshot<PageFile>,
    stage: Stage<E>,
}

impl<E: InForce> Model for Slot<E> {
    ghost use Rattle.page_batch.specs.Reading.{given_in};
    ghost use Rattle.page_batch.specs.Slots.{Slotted, slotted, IsStage};

    ghost Value = { Slotted };

    ghost view = { λ s. slotted s.file.value s.stage };

    ghost invariant = { λ s. IsStage E.entities (given_in s.file.value) s.stage };
}

// A page whose parse is over.
fn over_stage<E: InForce>(
    alloc: Global,
    pair: Pair<E>,
    text: Vec<u8>,
    outcome: End,
) -> Result<Stage<E>, NoMemory>
    requires { pair.core.desk.phase ≡ done (result_of outcome) }
    ensures stays { IfOk result (λ stage. (read : _) → IsGoing E.entities read pair text.items
        → IsStage E.entities (got read) stage) }
    ensures used { IfOk result (λ stage. used_in stage ≡ pair.journal.fetches) }
    ensures awaits { IfOk result (λ stage. awaited_in stage ≡ None) }
{
    let part = part_of(alloc, pair, text, outcome)?;
    Ok(Stage::Over(part))
}

// A page that awaits a script.
fn waiting<E: InForce>(pair: Pair<E>, text: Vec<u8>, awaits: Text) -> Stage<E>
    ensures stays { (read : _) → IsGoing E.entities read pair text.items
        → IsStage E.entities (got read) result }
    ensures used { used_in result ≡ pair.journal.fetches }
    ensures awaits { awaited_in result ≡ Some awaits }
{
    Stage::Waits(Going { pair, text, awaits })
}

// A page that went no further.
fn ended<E: InForce>(
    alloc: Global,
    pair: Pair<E>,
    text: Vec<u8>,
    stop: Stop,
) -> Result<Stage<E>, NoMemory>
    requires { (table : Met) × StopsAt table pair stop }
    ensures stays { IfOk result (λ stage. (read : _) → IsGoing E.entities read pair text.items
        → IsStage E.entities (got read) stage) }
    ensures used { IfOk result (λ stage. used_in stage ≡ pair.journal.fetches) }
    ensures awaits { IfOk result (λ stage. (table : Met) → StopsAt table pair stop
        → AwaitsNew table (awaited_in stage)) }
{
    match stop {
        Stop::Over(outcome) => over_stage(alloc, pair, text, outcome),
        Stop::Awaits(awaits) => Ok(waiting(pair, text, awaits)),
    }
}

// The two sides go on, and what they come to.
fn run_stage<E: InForce>(
    alloc: Global,
    table: &ScriptTable,
    pair: Pair<E>,
    text: Vec<u8>,
) -> Result<Stage<E>, NoMemory>
    ensures stays { IfOk result (λ stage. (read : _) → IsGoing E.entities read pair text.items
        → IsStage E.entities (got read) stage) }
    ensures known { IfOk result (λ stage. AreOf table.now pair.journal.fetches
        → AreOf table.now (used_in stage)) }
    ensures awaits { IfOk result (λ stage. AwaitsNew table.now (awaited_in stage)) }
{
    let mut pair = pair;
    let mut text = text;
    match run_on(alloc, table, &mut pair, &mut text) {
        Ok(stop) => ended(alloc, pair, text, stop),
        Err(NoMemory) => {
            let_go(pair);
            Err(NoMemory)
        }
    }
}

// A page that awaited a script goes on.
fn run_going<E: InForce>(
    alloc: Global,
    table: &ScriptTable,
    going: Going<E>,
) -> Result<Stage<E>, NoMemory>
    ensures stays { IfOk result (λ stage. (read : _)
        → IsGoing E.entities read going.pair going.text.items
        → IsStage E.entities (got read) stage) }
    ensures known { IfOk result (λ stage. AreOf table.now going.pair.journal.fetches
        → AreOf table.now (used_in stage)) }
    ensures awaits { IfOk result (λ stage. AwaitsNew table.now (awaited_in stage)) }
{
    let Going { pair, text, awaits } = going;
    drop(awaits);
    run_stage(alloc, table, pair, text)
}

// A page goes on as far as the table lets it.
fn next_stage<E: InForce>(
    alloc: Global,
    entities: &Table,
    table: &ScriptTable,
    stage: Stage<E>,
) -> Result<Stage<E>, NoMemory>
    requires { entities.now ≡ E.entities }
    ensures { IfOk result (λ next. NextOf E.entities table.now stage next) }
{
    match stage {
        Stage::Unread(page) => {
            let pair = begin::<E>(alloc, entities, page)?;
            run_stage(alloc, table, pair, Vec::new(alloc))
        }
        Stage::Waits(going) => run_going(alloc, table, going),
        Stage::Over(part) => Ok(Stage::Over(part)),
        Stage::Spent => Ok(Stage::Spent),
    }
}

// What comes of a page where memory may run out.
fn stage_after<E: InForce>(
    alloc: Global,
    entities: &Table,
    table: &ScriptTable,
    stage: Stage<E>,
) -> Stage<E>
    requires { entities.now ≡ E.entities }
    ensures { NextOf E.entities table.now stage result }
{
    match next_stage(alloc, entities, table, stage) {
        Ok(next) => next,
        Err(NoMemory) => Stage::Spent,
    }
}

// The part of a page of which nothing was read.
fn bare_part(alloc: Global, number: u8) -> Part
    ensures { (result.number ≡ number) × (result.text.items ≡ []) × (result.journal ≡ None) }
{
    Part {
        number,
        text: Vec::new(alloc),
        journal: None,
    }
}

// As the page was read.
fn first_stage<E: InForce>(alloc: Global, file: PageFile) -> Stage<E>
    ensures stage { IsStage E.entities (given_in file) result }
    ensures unused { used_in result ≡ [] }
    ensures awaits { awaited_in result ≡ None }
{
    match file {
        PageFile::Missing => Stage::Over(bare_part(alloc, 9)),
        PageFile::Faulted => Stage::Over(bare_part(alloc, 7)),
        PageFile::Read(page) => Stage::Unread(page),
    }
}

impl<E: InForce> Slot<E> {
    /// As the page was read.
    pub fn new(alloc: Global, file: PageFile) -> Slot<E>
        ensures page { result.page ≡ given_in file }
        ensures unused { result.used ≡ [] }
        ensures awaits { result.awaits ≡ None }
    {
        let kept = Snapshot::of(&file);
        Slot {
            file: kept,
            stage: first_stage(alloc, file),
        }
    }

    /// Goes on until the page is over or awaits a script that isn't in the table.
    pub fn go_on(&mut self, alloc: Global, entities: &Table, table: &ScriptTable)
        requires { entities.now ≡ E.entities }
        ensures { GoesOn table.now self.old self.new }
    {
        let stage = mem::replace(&mut self.stage, Stage::Spent);
        let next = stage_after(alloc, entities, table, stage);
        let_go(mem::replace(&mut self.stage, next));
    }

    /// The script that it awaits.
    pub fn awaited(&self) -> Option<&Text>
        ensures { option_map (λ name. name.now) result ≡ self.now.awaits }
    {
        match &self.stage {
            Stage::Unread(_) => None,
            Stage::Waits(going) => Some(&going.awaits),
            Stage::Over(_) => None,
            Stage::Spent => None,
        }
    }

    /// What is written of it, where it is over.
    pub fn part(&self) -> Option<&Part>
        ensures { IfSome result (λ part. HasPart E.entities self.now part.now) }
    {
        match &self.stage {
            Stage::Over(part) => Some(part),
            _ => None,
        }
    }
}

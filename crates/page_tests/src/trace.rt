//! The events of a run, in order, with what became of each reply.

use crate::exchange::{Asked, Passed, Step};
use core_definitions::Event;
use html_types::{NoMemory, Text};
use std::alloc::Global;

/// What became of a reply that was taken.
#[derive(Clone, Copy)]
pub enum Fate {
    /// It is of the epoch that it was taken in.
    Kept,
    /// A script of the page failed after its request was sent.
    Dropped,
}

/// An event of a run.
#[derive(Drop)]
pub enum Row {
    /// Something passes between the sides.
    Passed(Passed),
    /// A reply is taken.
    Taken(Asked, Fate),
    /// A batch of the request in hand is executed, or a script is run; none is in hand before the
    /// first reply.
    Done(Option<Asked>),
    /// The script of that name, which was awaited, has arrived.
    Arrived(Text),
}

// The rows so far, and the steps that are still to come.
#[derive(Drop)]
struct Rows<'a> {
    alloc: Global,
    rows: Vec<Row>,
    steps: &'a [Passed],
}

// How many steps of the parser's side come first.
fn count_answers(steps: &[Passed]) -> usize {
    let mut count: usize = 0;
    for passed in steps {
        if passed.step == Step::Send || passed.step == Step::Take {
            break;
        }
        count = count.saturating_add(1);
    }
    count
}

impl<'a> Rows<'a> {
    fn next_step(&mut self) -> Option<Passed> {
        let (first, rest) = self.steps.split_first()?;
        self.steps = rest;
        Some(*first)
    }

    // The steps of the parser's side, which it makes as soon as it can.
    fn add_answers(&mut self) -> Result<(), NoMemory> {
        let count = count_answers(self.steps).min(self.steps.len());
        let (answers, rest) = self.steps.split_at(count);
        for passed in answers {
            self.rows.push(Row::Passed(*passed))?;
        }
        self.steps = rest;
        Ok(())
    }

    // A step of the document's side.
    fn add_step(&mut self) -> Result<(), NoMemory> {
        match self.next_step() {
            None => Err(NoMemory),
            Some(passed) => {
                let row = match passed.step {
                    Step::Take => Row::Taken(passed.asked, Fate::Kept),
                    _ => Row::Passed(passed),
                };
                self.rows.push(row)?;
                Ok(())
            }
        }
    }

    fn add_event(&mut self, event: &Event) -> Result<(), NoMemory> {
        self.add_answers()?;
        match event {
            Event::Send | Event::Take => self.add_step()?,
            Event::Arrive(name) => {
                let name = name.copy(self.alloc)?;
                self.rows.push(Row::Arrived(name))?;
            }
            Event::Do => self.rows.push(Row::Done(None))?,
            Event::Pick | Event::Give => {}
        }
        Ok(())
    }
}

// An epoch ends where a script fails, behind which nothing is done until a reply of the next epoch
// is taken. So a reply is dropped where a request of a later epoch was sent before it was taken, or
// is sent before anything else is done.
fn drop_replies(rows: &mut [Row]) {
    let mut coming: u64 = 0;
    for row in rows.iter_mut().rev() {
        match row {
            Row::Passed(passed) if passed.step == Step::Send => coming = passed.asked.epoch,
            Row::Taken(asked, fate) if asked.epoch < coming => *fate = Fate::Dropped,
            Row::Done(_) => coming = 0,
            _ => {}
        }
    }
    let mut sent: u64 = 0;
    for row in rows.iter_mut() {
        match row {
            Row::Passed(passed) if passed.step == Step::Send => sent = passed.asked.epoch,
            Row::Taken(asked, fate) if asked.epoch < sent => *fate = Fate::Dropped,
            _ => {}
        }
    }
}

// What is done is done over the reply that was kept last.
fn set_hands(rows: &mut [Row]) {
    let mut hand: Option<Asked> = None;
    for row in rows.iter_mut() {
        match row {
            Row::Taken(asked, Fate::Kept) => hand = Some(*asked),
            Row::Done(over) => *over = hand,
            _ => {}
        }
    }
}

/// The rows of a run with these events of its document's side, and these steps between the sides.
pub fn rows_of(alloc: Global, events: &[Event], steps: &[Passed]) -> Result<Vec<Row>, NoMemory> {
    let mut rows = Rows {
        alloc,
        rows: Vec::new(alloc),
        steps,
    };
    for event in events {
        rows.add_event(event)?;
    }
    let mut rows = rows.rows;
    drop_replies(&mut rows);
    set_hands(&mut rows);
    Ok(rows)
}

//! A page that is run with its scripts, in memory.

ghost use Rattle.std.specs.Prelude.{◌≡◌, ◌==◌, ◌+◌, ◌<◌, ◌≤◌, length, IfOk, IfErr, OnOk};
ghost use Rattle.std.specs.Prelude.{MatchOption};
ghost use Rattle.memory_runner.specs.Runs.{scripts_in};
ghost use Rattle.specparse_c.specs.Runs.{part_of, IsPart, IsNamed, with_script, scripts_given};
ghost use Rattle.specparse_c.specs.Runs.{HasRan, FailsAtScript, FailsAtScripts, FailsAtFlags};
ghost use Rattle.specparse_c.specs.Runs.{FailsAtRun};

use crate::failure::Failure;
use crate::results::{table_of, text_in};
use html_document::{FlatAttribute, Span};
use memory_runner::{Ran, Scripts, run};
use std::alloc::Global;

// A part of the bytes, where it lies within them.
fn part(bytes: &[u8], span: Span) -> Option<&[u8]>
    ensures { MatchOption result (length bytes.now < span.start + span.length)
        (λ part. (part.now ≡ part_of bytes.now span) × IsPart bytes.now span) }
{
    let start = span.start as usize;
    let end = start + span.length as usize;
    let lacks = bytes.len() < end;
    if lacks {
        return None;
    }
    Some(&bytes[start..end])
}

// A part of the bytes as a name.
fn name_in_part(bytes: &[u8], span: Span) -> Option<&str>
    ensures { MatchOption result (IsNamed bytes.now span → ⊥)
        (λ name. (name.now ≡ part_of bytes.now span) × IsNamed bytes.now span) }
{
    match part(bytes, span) {
        None => None,
        Some(name) => match text_in(name) {
            None => None,
            Some(text) => Some(text),
        },
    }
}

// Adds a script of that name.
fn add_named(
    all: &mut Scripts,
    name: &str,
    row: &FlatAttribute,
    bytes: &[u8],
) -> Result<(), Failure>
    requires { name.now ≡ part_of bytes.now row.now.name }
    ensures added { OnOk result ((other : _) → scripts_in all.new other
        ≡ with_script (scripts_in all.old) bytes.now row.now other) }
    ensures failure { IfErr result (λ f. FailsAtScript bytes.now row.now f) }
{
    match part(bytes, row.value) {
        None => Err(Failure::Context),
        Some(text) => {
            all.add(name, text)?;
            Ok(())
        }
    }
}

fn add_script(all: &mut Scripts, row: &FlatAttribute, bytes: &[u8]) -> Result<(), Failure>
    ensures added { OnOk result ((other : _) → scripts_in all.new other
        ≡ with_script (scripts_in all.old) bytes.now row.now other) }
    ensures failure { IfErr result (λ f. FailsAtScript bytes.now row.now f) }
{
    match name_in_part(bytes, row.name) {
        None => Err(Failure::Context),
        Some(name) => add_named(all, name, row, bytes),
    }
}

fn scripts_of(alloc: Global, rows: &[FlatAttribute], bytes: &[u8]) -> Result<Scripts, Failure>
    ensures scripts { IfOk result (λ all. (name : _)
        → scripts_in all name ≡ scripts_given bytes.now rows.now name) }
    ensures failure { IfErr result (λ f. FailsAtScripts bytes.now rows.now f) }
{
    let mut all = Scripts::new(alloc);
    for row in rows {
        add_script(&mut all, row, bytes)?;
    }
    Ok(all)
}

// That the flags are 0 or 1.
fn are_known(flags: u32) -> Result<(), Failure>
    ensures known { OnOk result (flags ≤ 1) }
    ensures failure { IfErr result (λ f. FailsAtFlags flags f) }
{
    let unknown = flags > 1;
    if unknown {
        return Err(Failure::Context);
    }
    Ok(())
}

/// What the program prints of a page with these scripts: its tree's dump where the flags are 1.
pub fn ran(
    alloc: Global,
    entities: &[u8],
    page: &[u8],
    rows: &[FlatAttribute],
    bytes: &[u8],
    flags: u32,
) -> Result<Ran, Failure>
    ensures ran { IfOk result (λ ran.
        HasRan entities.now page.now bytes.now rows.now flags ran) }
    ensures failure { IfErr result (λ f.
        FailsAtRun entities.now bytes.now rows.now flags f) }
{
    are_known(flags)?;
    let scripts = scripts_of(alloc, rows, bytes)?;
    let table = table_of(alloc, entities)?;
    let dump = flags == 1;
    let ran = run(alloc, &table, scripts, page, dump)?;
    Ok(ran)
}

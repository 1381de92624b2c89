//! A page and its scripts.

ghost use Rattle.std.specs.Prelude.{◌≡◌, ◌<◌, ◌≤◌, ◌^◌, IfOk};
ghost use Rattle.std.specs.Str.{chars};
ghost use Rattle.page_maker.specs.Made.{made_page, named_script, made_scripts};

use crate::items::push_item;
use crate::numbers::{kind, next};
use html_types::{NoMemory, Text};
use std::alloc::Global;

/// A script's file.
#[derive(Drop)]
pub struct MadeScript {
    /// What a page's `src` names it by.
    pub name: Text,
    /// What stands in it.
    pub text: Text,
}

/// A page, and the files of the scripts that it names.
#[derive(Drop)]
pub struct Made {
    /// The page's text.
    pub page: Text,
    /// The scripts, by name.
    pub scripts: Vec<MadeScript>,
}

// The page of that many items.
#[tactic(auto, using(std::proofs::lemmas::Grind::common_steps, crate::proofs::Steps::one_more_item, crate::proofs::Steps::next_number))]
fn make_page(alloc: Global, number: u32, count: u32) -> Result<Text, NoMemory>
    ensures { IfOk result (λ page. page ≡ made_page number count) }
{
    let mut page = Text::from_str(alloc, "<!DOCTYPE html><body>")?;
    let mut current = number;
    for index in 0..count {
        current = next(current);
        push_item(alloc, &mut page, kind(current), index + 1)?;
    }
    Ok(page)
}

fn named_script(alloc: Global, name: &str, text: &str) -> Result<MadeScript, NoMemory>
    ensures { IfOk result (λ made. made ≡ named_script (chars name.now) (chars text.now)) }
{
    let name = Text::from_str(alloc, name)?;
    let text = Text::from_str(alloc, text)?;
    Ok(MadeScript { name, text })
}

fn make_scripts(alloc: Global) -> Result<Vec<MadeScript>, NoMemory>
    ensures { IfOk result (λ scripts. scripts.items ≡ made_scripts) }
{
    let line_break = named_script(alloc, "e", "document.write(\"<br>\");")?;
    let comment = named_script(alloc, "f", "document.write(\"<!--\");")?;
    let mut scripts = Vec::new(alloc);
    scripts.push(line_break)?;
    scripts.push(comment)?;
    Ok(scripts)
}

/// The page of `count` items that `number` chooses, and the scripts that they may name. Equal
/// arguments give equal pages. Time and memory are linear in `count`.
pub fn make(alloc: Global, number: u32, count: u32) -> Result<Made, NoMemory>
    requires in_31_bits { number < 2 ^ 31 }
    requires at_most_50000 { count ≤ 50000 }
    ensures page { IfOk result (λ made. made.page ≡ made_page number count) }
    ensures scripts { IfOk result (λ made. made.scripts.items ≡ made_scripts) }
{
    let page = make_page(alloc, number, count)?;
    let scripts = make_scripts(alloc)?;
    Ok(Made { page, scripts })
}

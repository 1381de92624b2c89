//! The items of a page.

ghost use Rattle.std.specs.Prelude.{◌≡◌, ◌++◌, OnOk, decimal};
ghost use Rattle.std.specs.Str.{chars};
ghost use Rattle.page_maker.specs.Made.{item};

use html_types::{NoMemory, Text};
use std::alloc::Global;

// Adds a number between two texts.
#[tactic(auto, using(std::proofs::lemmas::Grind::common_steps, crate::proofs::Literals::number_text))]
fn push_between(
    alloc: Global,
    page: &mut Text,
    before: &str,
    index: u32,
    behind: &str,
) -> Result<(), NoMemory>
    ensures { OnOk result
        (page.new ≡ page.old ++ (chars before.now ++ decimal index ++ chars behind.now)) }
{
    let digits = format!(in alloc; "{index}")?;
    page.push_str(before)?;
    page.push_str(digits.as_str())?;
    page.push_str(behind)
}

// Adds the item of a kind, the `index`th of its page.
#[tactic(auto, using(std::proofs::lemmas::Grind::common_steps, crate::proofs::Literals::pieces), unfolding(crate::specs::Made::item))]
pub(crate) fn push_item(
    alloc: Global,
    page: &mut Text,
    kind: u32,
    index: u32,
) -> Result<(), NoMemory>
    ensures { OnOk result (page.new ≡ page.old ++ item kind index) }
{
    match kind {
        0 => push_between(alloc, page, "<p>", index, ""),
        1 => push_between(alloc, page, "<div>", index, "</div>"),
        2 => push_between(alloc, page, "<b>", index, "</b>"),
        3 => push_between(
            alloc,
            page,
            "<p><script>document.write(\"<i>",
            index,
            "</i>\");</script>",
        ),
        4 => push_between(
            alloc,
            page,
            "<p><script>document.write(\"<u>\");</script>",
            index,
            "</u>",
        ),
        5 => page.push_str("<script src=\"e\"></script>"),
        6 => push_between(alloc, page, "<table><tr><td>", index, "</table>"),
        _ => push_between(alloc, page, "<script src=\"f\"></script>", index, "-->"),
    }
}

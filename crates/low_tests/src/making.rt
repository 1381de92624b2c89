//! A made page and its scripts, worked out.

ghost use Rattle.std.specs.Prelude.{◌<◌, ◌≤◌, ◌^◌};

use html_types::NoMemory;
use page_maker::{Made, make};
use std::alloc::Global;
use std::test::Fail;

// The page isn't to be worked out in the test: so it doesn't know by which numbers it was made.
fn made(alloc: Global, number: u32, count: u32) -> Result<Made, NoMemory>
    requires in_31_bits { number < 2 ^ 31 }
    requires at_most_50000 { count ≤ 50000 }
{
    make(alloc, number, count)
}

#[test]
fn four_items(rt: HostRuntime) -> Result<(), Fail> {
    let alloc = rt.alloc();
    let made = made(alloc, 1, 4)?;
    assert_eq!(rt;
        made.page.as_str(),
        "<!DOCTYPE html><body><table><tr><td>1</table><table><tr><td>2</table><div>3</div><p><script>document.write(\"<i>4</i>\");</script>"
    );
    let mut named = String::new(alloc);
    for script in &made.scripts {
        named.push_str(script.name.as_str())?;
        named.push_str(": ")?;
        named.push_str(script.text.as_str())?;
        named.push_str("\n")?;
    }
    assert_eq!(rt;
        named.as_str(),
        "e: document.write(\"<br>\");\nf: document.write(\"<!--\");\n"
    );
    Ok(())
}

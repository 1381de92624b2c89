//! Reads a script's text from its front to its end.

ghost use Rattle.std.specs.Prelude.{◌≡◌, option_map, IfOk};
ghost use Rattle.std.specs.Str.{chars};
ghost use Rattle.serial.specs.Statements.{skip_white, statement, statements, string_between};
ghost use Rattle.script_lang.specs.Parts.{parted, append, set_inner};

use crate::script::Script;
use crate::string::string_value;
use html_types::{NoMemory, Text};
use serial::Statement;
use std::alloc::Global;

/// Reads a script's text: its statements in order, none where the text isn't a list of these
/// seven, with space, TAB, LF and CR before, between and behind them, and none inside them but in
/// a string. `"V"` is a JSON string, and V its value.
///
/// - `document.write("V");`
/// - `document.writeln("V");`
/// - `document.getElementById("V").remove();`
/// - `document.getElementById("V").append(document.getElementById("W"));`
/// - `document.getElementById("V").innerHTML = "W";`
/// - `console.log(document.getElementById("V").outerHTML);`
/// - `console.log(document.documentElement.outerHTML);`
pub fn read(alloc: Global, text: &str) -> Result<Option<Script>, NoMemory>
    ensures { IfOk result (λ script. script ≡ statements (chars text.now)) }
{
    let mut script = Script::new(alloc);
    let mut rest = skip_white(text);
    while !rest.is_empty() {
        let Some((statement, behind)) = statement(alloc, rest)? else {
            return Ok(None);
        };
        script.push(statement)?;
        rest = skip_white(behind);
    }
    Ok(Some(script))
}

/// The text from its first character on that isn't space, TAB, LF or CR.
fn skip_white(text: &str) -> &str
    ensures { chars result.now ≡ skip_white (chars text.now) }
{
    text.trim_start_matches([' ', '\t', '\n', '\r'])
}

/// The statement that the text begins with, and the text behind it; none where it begins with none.
fn statement<'a>(alloc: Global, text: &'a str) -> Result<Option<(Statement, &'a str)>, NoMemory>
    ensures { IfOk result (λ found. option_map parted found ≡ statement (chars text.now)) }
{
    if let Some((value, rest)) = string_between(alloc, text, "document.write(", ");")? {
        return Ok(Some((Statement::Write(value), rest)));
    }
    if let Some((value, rest)) = string_between(alloc, text, "document.writeln(", ");")? {
        return Ok(Some((Statement::WriteLine(value), rest)));
    }
    if let Some((value, rest)) = string_between(
        alloc,
        text,
        "document.getElementById(",
        ").remove();",
    )? {
        return Ok(Some((Statement::Remove(value), rest)));
    }
    if let Some(moved) = append(alloc, text)? {
        return Ok(Some(moved));
    }
    if let Some(set) = set_inner(alloc, text)? {
        return Ok(Some(set));
    }
    if let Some((value, rest)) = string_between(
        alloc,
        text,
        "console.log(document.getElementById(",
        ").outerHTML);",
    )? {
        return Ok(Some((Statement::LogById(value), rest)));
    }
    match text.strip_prefix("console.log(document.documentElement.outerHTML);") {
        Some(rest) => Ok(Some((Statement::LogRoot, rest))),
        None => Ok(None),
    }
}

/// The statement that moves an element, where the text begins with one, and the text behind it.
fn append<'a>(alloc: Global, text: &'a str) -> Result<Option<(Statement, &'a str)>, NoMemory>
    ensures { IfOk result (λ found. option_map parted found ≡ append (chars text.now)) }
{
    let Some((first, behind)) = string_between(
        alloc,
        text,
        "document.getElementById(",
        ").append(document.getElementById(",
    )?
    else {
        return Ok(None);
    };
    match string_between(alloc, behind, "", "));")? {
        Some((second, rest)) => Ok(Some((Statement::Append(first, second), rest))),
        None => Ok(None),
    }
}

/// The statement that sets what stands in an element, where the text begins with one, and the text
/// behind it.
fn set_inner<'a>(alloc: Global, text: &'a str) -> Result<Option<(Statement, &'a str)>, NoMemory>
    ensures { IfOk result (λ found. option_map parted found ≡ set_inner (chars text.now)) }
{
    let Some((first, behind)) = string_between(
        alloc,
        text,
        "document.getElementById(",
        ").innerHTML = ",
    )?
    else {
        return Ok(None);
    };
    match string_between(alloc, behind, "", ";")? {
        Some((second, rest)) => Ok(Some((Statement::SetInner(first, second), rest))),
        None => Ok(None),
    }
}

/// The value of the string that stands between two words at the front of the text, and the text
/// behind them.
fn string_between<'a>(
    alloc: Global,
    text: &'a str,
    before: &str,
    after: &str,
) -> Result<Option<(Text, &'a str)>, NoMemory>
    ensures { IfOk result (λ found. option_map parted found
        ≡ string_between (chars before.now) (chars after.now) (chars text.now)) }
{
    let Some(at_string) = text.strip_prefix(before) else {
        return Ok(None);
    };
    let Some((value, behind)) = string_value(alloc, at_string)? else {
        return Ok(None);
    };
    match behind.strip_prefix(after) {
        Some(rest) => Ok(Some((value, rest))),
        None => Ok(None),
    }
}

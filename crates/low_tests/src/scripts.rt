//! Texts that are scripts, and texts that aren't.

use html_types::NoMemory;
use script_lang::read;
use serial::Statement;
use std::alloc::Global;
use std::test::Fail;

/// Whether the text is one write of that value.
fn writes(alloc: Global, text: &str, value: &str) -> Result<bool, NoMemory> {
    let Some(script) = read(alloc, text)? else {
        return Ok(false);
    };
    match script.as_slice() {
        [Statement::Write(text)] => Ok(text.as_str() == value),
        _ => Ok(false),
    }
}

/// Whether the text is one move of the second element into the first.
fn moves(alloc: Global, text: &str, first: &str, second: &str) -> Result<bool, NoMemory> {
    let Some(script) = read(alloc, text)? else {
        return Ok(false);
    };
    match script.as_slice() {
        [Statement::Append(into, moved)] => Ok(into.as_str() == first && moved.as_str() == second),
        _ => Ok(false),
    }
}

/// How many statements the text is; none where it is no list of statements.
fn count(alloc: Global, text: &str) -> Result<Option<usize>, NoMemory> {
    match read(alloc, text)? {
        Some(script) => Ok(Some(script.as_slice().len())),
        None => Ok(None),
    }
}

#[test]
fn empty_text(rt: HostRuntime) -> Result<(), Fail> {
    assert_eq!(rt; count(rt.alloc(), "")?, Some(0));
    Ok(())
}

#[test]
fn white_space(rt: HostRuntime) -> Result<(), Fail> {
    let text = " \t\r\ndocument.write(\"a\");\n\n document.write(\"b\"); ";
    assert_eq!(rt; count(rt.alloc(), text)?, Some(2));
    Ok(())
}

#[test]
fn form_feed(rt: HostRuntime) -> Result<(), Fail> {
    assert_eq!(rt; count(rt.alloc(), "document.write(\"a\");\x0c")?, None);
    Ok(())
}

#[test]
fn seven_statements(rt: HostRuntime) -> Result<(), Fail> {
    let text =
        "document.write(\"\");document.writeln(\"\");document.getElementById(\"a\").remove();\
        document.getElementById(\"a\").append(document.getElementById(\"b\"));\
        document.getElementById(\"a\").innerHTML = \"<b>\";\
        console.log(document.documentElement.outerHTML);\
        console.log(document.getElementById(\"a\").outerHTML);";
    assert_eq!(rt; count(rt.alloc(), text)?, Some(7));
    Ok(())
}

#[test]
fn two_elements_of_a_move(rt: HostRuntime) -> Result<(), Fail> {
    let text = "document.getElementById(\"a\").append(document.getElementById(\"b\"));";
    assert!(rt; moves(rt.alloc(), text, "a", "b")?);
    Ok(())
}

#[test]
fn escape_by_number(rt: HostRuntime) -> Result<(), Fail> {
    assert!(rt; writes(rt.alloc(), "document.write(\"\\u0041\");", "A")?);
    Ok(())
}

#[test]
fn escaped_slash_and_quote(rt: HostRuntime) -> Result<(), Fail> {
    assert!(rt; writes(rt.alloc(), "document.write(\"<\\/p>\\\"\");", "</p>\"")?);
    Ok(())
}

#[test]
fn lone_surrogate(rt: HostRuntime) -> Result<(), Fail> {
    assert_eq!(rt; count(rt.alloc(), "document.write(\"\\ud83d\");")?, None);
    Ok(())
}

#[test]
fn unknown_statement(rt: HostRuntime) -> Result<(), Fail> {
    assert_eq!(rt; count(rt.alloc(), "alert(\"a\");")?, None);
    Ok(())
}

#[test]
fn unfinished_string(rt: HostRuntime) -> Result<(), Fail> {
    assert_eq!(rt; count(rt.alloc(), "document.write(\"a\\\");")?, None);
    Ok(())
}

//! Character references: calls on a file of a few names, and files that are refused.

use entity_table::{Characters, Cursor, Match, Step, Table, TableFault};
use std::alloc::Global;
use std::test::Fail;

const SIX: &[u8] =
    b"{\"&amp;\":{\"codepoints\":[38]},\"&amp\":{\"codepoints\":[38]},\"&lt;\":{\"codepoints\":[60]},\"&lt\":{\"codepoints\":[60]},\"&not;\":{\"codepoints\":[172]},\"&not\":{\"codepoints\":[172]},\"&notin;\":{\"codepoints\":[8713]},\"&nbsp;\":{\"codepoints\":[160]},\"&acE;\":{\"codepoints\":[8766,819],\"characters\":\"x\"}}";

// What a file comes to isn't to be worked out in the tests: so they don't know which file was read.
fn read(alloc: Global, bytes: &[u8]) -> Result<Table, TableFault> {
    Table::read(alloc, bytes)
}

// The longest name with which the text begins.
fn longest(table: &Table, text: &str) -> Option<Match> {
    Cursor::over(table, text).best()
}

fn find(table: &Table, name: &str) -> Option<Match> {
    table.find(name)
}

fn push(cursor: &mut Cursor, table: &Table, c: char) -> Step {
    cursor.push(table, c)
}

fn one(length: usize, ends_in_semicolon: bool, first: char) -> Option<Match> {
    Some(Match {
        length,
        ends_in_semicolon,
        characters: Characters {
            first,
            second: None,
        },
    })
}

#[test]
fn finds_the_longest(rt: HostRuntime) -> Result<(), Fail> {
    let read = read(rt.alloc(), SIX)?;
    let table = read.copy()?;
    let mut cursor = Cursor::over(&table, "&not");
    assert!(rt; push(&mut cursor, &table, 'i') == Step::More);
    assert!(rt; cursor.best() == one(4, false, '¬'));
    assert!(rt; push(&mut cursor, &table, 't') == Step::Stop(one(4, false, '¬')));
    assert!(rt; push(&mut cursor, &table, ';') == Step::Stop(one(4, false, '¬')));
    assert!(rt; longest(&table, "&notin;x") == one(7, true, '∉'));
    assert!(rt; longest(&table, "&lt") == one(3, false, '<'));
    Ok(())
}

#[test]
fn gives_both_characters(rt: HostRuntime) -> Result<(), Fail> {
    let table = read(rt.alloc(), SIX)?;
    let characters = Characters {
        first: '∾',
        second: Some('\u{333}'),
    };
    let found = longest(&table, "&acE;");
    assert!(rt; found.map(|m| m.characters) == Some(characters));
    let mut cursor = Cursor::new(&table);
    assert!(rt; push(&mut cursor, &table, 'a') == Step::Stop(None));
    Ok(())
}

#[test]
fn finds_whole_names(rt: HostRuntime) -> Result<(), Fail> {
    let table = read(rt.alloc(), SIX)?;
    assert!(rt; find(&table, "&not;") == one(5, true, '¬'));
    assert!(rt; find(&table, "&not") == one(4, false, '¬'));
    assert!(rt; find(&table, "&no").is_none());
    assert!(rt; find(&table, "&notit;").is_none());
    assert!(rt; find(&table, "amp;").is_none());
    Ok(())
}

fn is_refused(rt: &HostRuntime, bytes: &[u8]) -> bool {
    matches!(read(rt.alloc(), bytes), Err(TableFault::NotTable))
}

#[test]
fn refuses_other_files(rt: HostRuntime) {
    assert!(rt; is_refused(&rt, b"[]"));
    assert!(rt; is_refused(&rt, b"{} {}"));
    assert!(rt; is_refused(&rt, b"{\"&\xff\":{\"codepoints\":[38]}}"));
    assert!(rt; is_refused(&rt, b"{\"amp;\":{\"codepoints\":[38]}}"));
    assert!(rt; is_refused(&rt, b"{\"&a-b;\":{\"codepoints\":[38]}}"));
    assert!(rt; is_refused(&rt, b"{\"&amp;\":[38]}"));
    assert!(rt; is_refused(&rt, b"{\"&amp;\":{\"codepoints\":[]}}"));
    assert!(rt; is_refused(&rt, b"{\"&amp;\":{\"codepoints\":[55296]}}"));
    assert!(rt; is_refused(&rt, b"{\"&amp;\":{\"codepoints\":[38.0]}}"));
    assert!(rt; !is_refused(&rt, b"{\"&a\":1,\"&a\":{\"codepoints\":[0]}}"));
}

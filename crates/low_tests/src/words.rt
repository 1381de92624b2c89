//! The words of a command.

use command_words::{CommandWords, Refused, read_words};
use html_types::NoMemory;
use std::alloc::{AllocError, Global};
use std::test::Fail;

fn words(alloc: Global, texts: &[&str]) -> Result<Vec<String>, AllocError> {
    let mut words = Vec::new(alloc);
    for text in texts {
        words.push(String::from_str(alloc, text)?)?;
    }
    Ok(words)
}

// What the words ask for. None where they aren't in the command's grammar.
fn read(alloc: Global, texts: &[&str]) -> Result<Option<CommandWords>, NoMemory> {
    let words = words(alloc, texts)?;
    match read_words(alloc, &words) {
        Ok(read) => Ok(Some(read)),
        Err(Refused::Usage) => Ok(None),
        Err(Refused::NoMemory) => Err(NoMemory),
    }
}

#[test]
fn words_are_read(rt: HostRuntime) -> Result<(), Fail> {
    let alloc = rt.alloc();
    let page = ["specparse", "page", "--piece", "16", "p", "d", "e"];
    match read(alloc, &page)? {
        Some(CommandWords::Page(read)) => {
            assert_eq!(rt; read.page.as_str(), "p");
            assert_eq!(rt; read.piece, 16);
            assert_eq!(rt; read.ahead, 8);
        }
        _other => assert!(rt; false),
    }
    match read(alloc, &["specparse", "make", "2147483647", "50000"])? {
        Some(CommandWords::Make(read)) => {
            assert_eq!(rt; read.number, 2_147_483_647);
            assert_eq!(rt; read.count, 50_000);
        }
        _other => assert!(rt; false),
    }
    match read(alloc, &["specparse", "batch", "l", "d", "e"])? {
        Some(CommandWords::Batch(read)) => {
            assert_eq!(rt; read.list.as_str(), "l");
            assert_eq!(rt; read.dir.as_str(), "d");
            assert_eq!(rt; read.entities.as_str(), "e");
        }
        _other => assert!(rt; false),
    }
    assert!(rt; read(alloc, &["specparse", "--help"])?.is_none());
    Ok(())
}

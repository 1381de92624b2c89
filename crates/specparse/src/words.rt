//! What standard error is told. No contract speaks of it.

use command_words::{BatchWords, CommandWords, PageWords, read_words};
use outside::{Port, Trouble};
use page_runner::Status;
use std::io::ErrorKind;

/// How a run ended, and why the latest call failed that did.
#[derive(Drop)]
pub struct Ended {
    pub status: Status,
    pub reading: Option<Trouble>,
    pub writing: Option<ErrorKind>,
}

// The word of a status of which the output tells nothing.
fn word_of(status: Status) -> Option<&'static str> {
    match status {
        Status::Done => None,
        Status::Usage => Some("usage"),
        Status::Entities => Some("entities"),
        Status::BadUtf8 => None,
        Status::Limit(_) => None,
        Status::ReadFault => Some("read fault"),
        Status::WriteFault => Some("write fault"),
        Status::Absent => Some("absent"),
        Status::List => Some("list"),
        Status::NoMemory => Some("no memory"),
    }
}

// What was read at a port.
fn part_of(port: Port) -> &'static str {
    match port {
        Port::Entities => "entities",
        Port::List => "list",
        Port::Page => "page",
        Port::Script => "a script of",
    }
}

// What the words of a page name for it.
fn path_of(port: Port, words: &PageWords) -> &str {
    match port {
        Port::Entities => words.entities.as_str(),
        Port::Script => words.dir.as_str(),
        _ => words.page.as_str(),
    }
}

// What the words of a list name for it.
fn path_in(port: Port, words: &BatchWords) -> &str {
    match port {
        Port::Entities => words.entities.as_str(),
        Port::Script => words.dir.as_str(),
        _ => words.list.as_str(),
    }
}

fn tell_file(rt: HostRuntime, port: Port, kind: ErrorKind, path: &str) {
    let part = part_of(port);
    let _ = if kind == ErrorKind::NotFound {
        eprintln!(rt; "  {part} {path}: no such file")
    } else {
        eprintln!(rt; "  {part} {path}: {kind}")
    };
}

// Why a file wasn't read, where the words name it.
fn tell_reading(rt: HostRuntime, trouble: Trouble, words: &[String]) {
    let Trouble { port, kind } = trouble;
    match read_words(rt.alloc(), words) {
        Ok(CommandWords::Page(asked)) => tell_file(rt, port, kind, path_of(port, &asked)),
        Ok(CommandWords::Batch(asked)) => tell_file(rt, port, kind, path_in(port, &asked)),
        _ => {}
    }
}

fn tell_table(rt: HostRuntime, path: &str) {
    let _ = eprintln!(rt; "  entities {path}: no list of named character references");
}

// Which file lists no entities.
fn tell_entities(rt: HostRuntime, words: &[String]) {
    match read_words(rt.alloc(), words) {
        Ok(CommandWords::Page(asked)) => tell_table(rt, asked.entities.as_str()),
        Ok(CommandWords::Batch(asked)) => tell_table(rt, asked.entities.as_str()),
        _ => {}
    }
}

// Which file lists no pages.
fn tell_list(rt: HostRuntime, words: &[String]) {
    if let Ok(CommandWords::Batch(asked)) = read_words(rt.alloc(), words) {
        let path = asked.list.as_str();
        let _ = eprintln!(rt;
            "  list {path}: not UTF-8, or an empty line, or more than 1048576 bytes (split -C 1m cuts it)"
        );
    }
}

// How the command is called.
fn tell_usage(rt: HostRuntime) {
    let _ = eprintln!(rt;
        "usage: specparse page [--piece N] [--ahead K] [--preload H] [--dump] [--watch W] PAGE DIR ENTITIES"
    );
    let _ = eprintln!(rt; "       specparse batch LIST DIR ENTITIES");
    let _ = eprintln!(rt; "       specparse make NUMBER COUNT");
    let _ = eprintln!(rt;
        "N 1 to 65536, K 1 to 64, H 0 to 8, W 0 to 8, NUMBER 0 to 2147483647, COUNT 1 to 50000"
    );
}

/// Says how a run ended, where the output tells nothing of it.
pub fn tell(rt: HostRuntime, status: Status) {
    if let Some(word) = word_of(status) {
        let _ = eprintln!(rt; "specparse: {word}");
    }
    if status == Status::Usage {
        tell_usage(rt);
    }
}

/// Says which file, and why, behind that.
pub fn tell_why(rt: HostRuntime, ended: &Ended, words: &[String]) {
    match (ended.status, ended.reading, ended.writing) {
        (Status::Entities, _, _) => tell_entities(rt, words),
        (Status::List, _, _) => tell_list(rt, words),
        (Status::Absent | Status::ReadFault, Some(trouble), _) => tell_reading(rt, trouble, words),
        (Status::WriteFault, _, Some(kind)) => {
            let _ = eprintln!(rt; "  {kind}");
        }
        _ => {}
    }
}

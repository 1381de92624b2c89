// The paths of a list of pages.
ghost use Rattle.std.specs.Prelude.{◌≡◌, ◌==◌, ◌++◌, ◌∷◌, [], map, Some, None, true, false, Err};
ghost use Rattle.std.specs.Prelude.{IfOk, OnOk};
ghost use Rattle.std.specs.List.{before_first, after_first};
ghost use Rattle.std.specs.String.{string_bytes};
ghost use Rattle.page_batch.specs.Lists.{lines_of, has_empty, paths_in};

use html_types::NoMemory;
use std::alloc::Global;
use std::str;

/// The most bytes of a list.
pub const LIST_LIMIT: usize = 1_048_576;

/// Why there are no paths.
#[derive(Clone, Copy, PartialEq, Eq)]
pub enum ListFault {
    /// The bytes are no list: too many, or not UTF-8, or with an empty line.
    NotList,
    NoMemory,
}

impl From<NoMemory> for ListFault {
    ghost use Rattle.page_batch.specs.declared.list.ListFault.TheVariants as faults;

    ghost from_gives = { λ _ fault. fault ≡ faults.NoMemory };

    fn from(_error: NoMemory) -> ListFault {
        ListFault::NoMemory
    }
}

// Adds a path.
fn push_path(alloc: Global, paths: &mut Vec<String>, line: &str) -> Result<(), NoMemory>
    ensures { OnOk result (map string_bytes paths.new.items
        ≡ map string_bytes paths.old.items ++ line.now ∷ []) }
{
    paths.push(String::from_str(alloc, line)?)?;
    Ok(())
}

// The first line.
fn first_line(text: &str) -> &str
    ensures { result.now ≡ before_first (λ b. b == 10) text.now }
{
    match text.split_once('\n') {
        Some((line, _)) => line,
        None => text,
    }
}

// What stands behind the first line.
fn behind_line(text: &str) -> &str
    ensures { result.now ≡ after_first (λ b. b == 10) text.now }
{
    match text.split_once('\n') {
        Some((_, behind)) => behind,
        None => "",
    }
}

// The lines of a text, none of which is empty.
fn cut_lines(alloc: Global, text: &str) -> Result<Vec<String>, ListFault>
    ensures lines { IfOk result (λ paths. map string_bytes paths.items ≡ lines_of text.now) }
    ensures none_empty { IfOk result (λ _. has_empty (lines_of text.now) ≡ false) }
    ensures empty { result ≡ Err ListFault.NotList → has_empty (lines_of text.now) ≡ true }
{
    let mut paths = Vec::new(alloc);
    let mut rest = text;
    'lines: while !rest.is_empty() {
        let line = first_line(rest);
        if line.is_empty() {
            return Err(ListFault::NotList);
        }
        push_path(alloc, &mut paths, line)?;
        rest = behind_line(rest);
    }
    Ok(paths)
}

/// The paths that a list of pages has, a line each.
pub fn paths_of(alloc: Global, bytes: &[u8]) -> Result<Vec<String>, ListFault>
    ensures paths { IfOk result (λ paths.
        paths_in bytes.now ≡ Some (map string_bytes paths.items)) }
    ensures none { result ≡ Err ListFault.NotList → paths_in bytes.now ≡ None }
{
    if bytes.len() > LIST_LIMIT {
        return Err(ListFault::NotList);
    }
    match str::from_utf8(bytes) {
        Ok(text) => cut_lines(alloc, text),
        Err(_) => Err(ListFault::NotList),
    }
}

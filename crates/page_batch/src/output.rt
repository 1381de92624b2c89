// What a batch writes.
ghost use Rattle.std.specs.Prelude.{◌≡◌, ◌++◌, IfOk, OnOk, OnErr, flat_map};
ghost use Rattle.serial.specs.Output.{line_text};
ghost use Rattle.page_turns.specs.Taken.{Took, TookFront};
ghost use Rattle.parse_machine.specs.Ends.{result_of};
ghost use Rattle.page_batch.specs.Parts.{end_number, page_line, status_line};
ghost use Rattle.page_batch.specs.Windows.{CountsFaults};

use html_types::{NoMemory, Why};
use outside::Sink;
use page_turns::{End, Failure, json_line, line_text, write_all};
use serial::Line;
use std::alloc::Global;

/// The number of an outcome: the exit status of a run of that page alone.
pub(crate) fn end_number(outcome: End) -> u8
    ensures { result ≡ end_number (result_of outcome) }
{
    match outcome {
        End::Finished => 0,
        End::Refused(Why::BadUtf8) => 4,
        End::Refused(Why::Depth) => 5,
        End::Refused(Why::Writes) => 5,
        End::Refused(Why::Page) => 5,
        End::Refused(Why::Fault) => 7,
    }
}

/// Adds the text of lines.
pub(crate) fn push_lines(alloc: Global, text: &mut Vec<u8>, lines: &[Line]) -> Result<(), NoMemory>
    ensures { OnOk result (text.new.items ≡ text.old.items ++ flat_map line_text lines.now) }
{
    for line in lines {
        let bytes = line_text(alloc, line)?;
        text.extend_from_slice(&bytes)?;
    }
    Ok(())
}

// The line of a page's path.
fn page_line(alloc: Global, path: &str) -> Result<Vec<u8>, NoMemory>
    ensures { IfOk result (λ line. line.items ≡ page_line path.now) }
{
    json_line(String::from_str(alloc, "page ")?, path)
}

// The line of a page's number.
fn status_line(alloc: Global, number: u8) -> Result<Vec<u8>, NoMemory>
    ensures { IfOk result (λ line. line.items ≡ status_line number) }
{
    Ok(format!(in alloc; "status {number}\n")?.into_bytes())
}

/// Writes a page's part.
pub(crate) fn write_part<K: Sink>(
    alloc: Global,
    out: &mut K,
    path: &str,
    number: u8,
    text: &[u8],
) -> Result<(), Failure>
    ensures took { OnOk result (Took (K.taken out.old) (K.taken out.new)
        (page_line path.now ++ text.now ++ status_line number)) }
    ensures front { OnErr result (TookFront (K.taken out.old) (K.taken out.new)
        (page_line path.now ++ text.now ++ status_line number)) }
    ensures faults { CountsFaults result (K.faults out.old) (K.faults out.new) }
{
    let head = page_line(alloc, path)?;
    let foot = status_line(alloc, number)?;
    write_all(out, &head)?;
    write_all(out, text)?;
    write_all(out, &foot)?;
    Ok(())
}

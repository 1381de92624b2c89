// The lines that a run writes.
ghost use Rattle.std.specs.Prelude.{◌≡◌, ◌≤◌, ◌++◌, codes, IfOk, OnOk, OnErr, IsErrOf, flat_map};
ghost use Rattle.std.specs.Prelude.{string_bytes};
ghost use Rattle.std.specs.Str.{chars};
ghost use Rattle.serial.specs.Output.{line_text, tree_text, tree_lines, refusal_text, result_with};
ghost use Rattle.serial.specs.Output.{json_string};
ghost use Rattle.outside.specs.Outside.{Rose};
ghost use Rattle.page_turns.specs.Taken.{Took, TookFront};
ghost use Rattle.parse_machine.specs.Ends.{result_of};
ghost use Rattle.page_turns.specs.Watched.{watch_text};

use crate::page::Failure;
use crate::write::write_all;
use core_steps::End;
use html_types::{NoMemory, Why};
use op_exec::Doc;
use outside::Sink;
use serial::Line;
use serialiser::with_json;
use std::alloc::Global;

/// The line that begins so and ends with a text as a JSON string.
pub fn json_line(start: String, text: &str) -> Result<Vec<u8>, NoMemory>
    ensures { IfOk result
        (λ line. line.items ≡ string_bytes start ++ json_string (chars text.now) ++ codes "\n") }
{
    let mut line = with_json(start.into_bytes(), text)?;
    line.push(b'\n')?;
    Ok(line)
}

/// The text of a script's line.
pub fn line_text(alloc: Global, line: &Line) -> Result<Vec<u8>, NoMemory>
    ensures { IfOk result (λ bytes. bytes.items ≡ line_text line.now) }
{
    match line {
        Line::Log(number, text) => json_line(format!(in alloc; "log {number} ")?, text.as_str()),
        Line::Throw(number) => Ok(format!(in alloc; "throw {number}\n")?.into_bytes()),
        Line::Syntax(number) => Ok(format!(in alloc; "syntax {number}\n")?.into_bytes()),
        Line::Miss(name) => json_line(String::from_str(alloc, "miss ")?, name.as_str()),
    }
}

fn write_line<K: Sink>(alloc: Global, out: &mut K, line: &Line) -> Result<(), Failure>
    ensures took { OnOk result (Took (K.taken out.old) (K.taken out.new) (line_text line.now)) }
    ensures front { OnErr result
        (TookFront (K.taken out.old) (K.taken out.new) (line_text line.now)) }
    ensures write { IsErrOf result Failure.Write → Rose (K.faults out.old) (K.faults out.new) }
    ensures faults { K.faults out.old ≤ K.faults out.new }
{
    let text = line_text(alloc, line)?;
    write_all(out, &text)?;
    Ok(())
}

/// Writes lines in order.
pub(crate) fn write_lines<K: Sink>(
    alloc: Global,
    out: &mut K,
    lines: &[Line],
) -> Result<(), Failure>
    ensures took { OnOk result
        (Took (K.taken out.old) (K.taken out.new) (flat_map line_text lines.now)) }
    ensures front { OnErr result
        (TookFront (K.taken out.old) (K.taken out.new) (flat_map line_text lines.now)) }
    ensures write { IsErrOf result Failure.Write → Rose (K.faults out.old) (K.faults out.new) }
    ensures faults { K.faults out.old ≤ K.faults out.new }
{
    for line in lines {
        write_line(alloc, out, line)?;
    }
    Ok(())
}

// The document's text as a JSON string. No copy of the text is made but the line.
fn show_tree(alloc: Global, doc: &Doc) -> Result<Vec<u8>, NoMemory>
    ensures { IfOk result (λ bytes. bytes.items ≡ tree_text doc.now.tree) }
{
    let text = serialiser::document(alloc, doc.tree())?;
    json_line(String::from_str(alloc, "tree ")?, text.as_str())
}

// The document's text, or its dump.
fn show_lines(alloc: Global, doc: &Doc, dump: bool) -> Result<Vec<u8>, NoMemory>
    ensures { IfOk result (λ bytes. bytes.items ≡ tree_lines dump doc.now.tree) }
{
    if dump {
        serialiser::dump(alloc, doc.tree())
    } else {
        show_tree(alloc, doc)
    }
}

fn refusal(why: Why) -> &'static str
    ensures { result.now ≡ refusal_text why }
{
    match why {
        Why::BadUtf8 => "refused bad-utf8\n",
        Why::Depth => "refused depth\n",
        Why::Writes => "refused writes\n",
        Why::Page => "refused page\n",
        Why::Fault => "",
    }
}

/// What is written of a page's outcome behind the lines of its scripts, with the tree's text or its
/// dump.
pub fn show_outcome(alloc: Global, doc: &Doc, outcome: End, dump: bool) -> Result<Vec<u8>, NoMemory>
    ensures { IfOk result
        (λ bytes. bytes.items ≡ result_with dump (result_of outcome) doc.now.tree) }
{
    match outcome {
        End::Finished => show_lines(alloc, doc, dump),
        End::Refused(why) => {
            let line = String::from_str(alloc, refusal(why))?;
            Ok(line.into_bytes())
        }
    }
}

/// The line of what a watcher of that number saw last: the document's text.
pub fn show_watch(alloc: Global, number: usize, text: &str) -> Result<Vec<u8>, NoMemory>
    ensures { IfOk result (λ line. line.items ≡ watch_text number (chars text.now)) }
{
    json_line(format!(in alloc; "watch {number} ")?, text)
}

//! Where a run stands.

use html_types::Text;
use parse_machine::End;

/// Where a run stands, as its caller is to know it.
#[derive(Clone, Copy)]
pub enum State<'a> {
    /// It can go on, or a reply is to come.
    Running,
    /// The script of that name is awaited.
    Awaits(&'a Text),
    /// The parse is over.
    Over(End),
}

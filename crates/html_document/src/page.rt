//! A page's document in one call.

ghost use Rattle.std.specs.Prelude.{◌≡◌, IfOk, false};
ghost use Rattle.html_types.specs.declared.ending.Why.{Why};
ghost use Rattle.serial.specs.Page.{page_of};
ghost use Rattle.serial.specs.Quiet.{tree, refused, quiet};
ghost use Rattle.html_document.specs.declared.feeding.TheConstants.{PAGE_LIMIT};

use crate::feeding::PageParser;
use crate::refused::Refused;
use entity_table::Table;
use op_exec::Doc;
use std::alloc::Global;

// How many bytes are parsed at once: the operations of so many are held together.
const PIECE: usize = 65_536;

/// The document of a page whose scripts don't run. `Refused::Parse` comes exactly where the parse
/// of the page is refused.
pub fn parse(alloc: Global, table: &Table, page: &[u8]) -> Result<Doc, Refused>
    ensures tree { IfOk result (λ d. quiet table.now (page_of PAGE_LIMIT page.now false) ≡ tree d) }
    ensures refused { (w : Why) → result ≡ Err (Refused.Parse w)
        → quiet table.now (page_of PAGE_LIMIT page.now false) ≡ refused w }
{
    let mut parser = PageParser::new(alloc, table)?;
    let mut rest = page;
    'pieces: while !rest.is_empty() {
        let (piece, behind) = rest.split_at(rest.len().min(PIECE));
        parser.feed(piece)?;
        rest = behind;
    }
    parser.finish()
}

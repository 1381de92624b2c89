// A page's text, in pieces.
ghost use Rattle.std.specs.Prelude.{◌≡◌, IfOk};
ghost use Rattle.serial.specs.Page.{text_of, ending_of};
ghost use Rattle.core_definitions.specs.Core.{joined};
ghost use Rattle.page_turns.specs.declared.page.TheConstants.{PAGE_LIMIT};

use crate::read::{PIECE, PageBytes};
use html_types::{Ending, NoMemory, Text};
use page_turns::PAGE_LIMIT;
use std::alloc::Global;
use utf8_pieces::Decoder;

/// The text of a page's bytes, cut into pieces, and its ending.
pub(crate) fn pieces_of(alloc: Global, page: &PageBytes) -> Result<(Vec<Text>, Ending), NoMemory>
    ensures text { IfOk result (λ r. joined r.0.items ≡ text_of PAGE_LIMIT page.now.bytes.items) }
    ensures ending { IfOk result (λ r.
        r.1 ≡ ending_of PAGE_LIMIT page.now.bytes.items page.now.fault) }
{
    let mut decoder = Decoder::new(alloc, PAGE_LIMIT);
    let mut pieces = Vec::new(alloc);
    let mut rest = page.bytes.as_slice();
    'pieces: while !rest.is_empty() {
        let (piece, behind) = rest.split_at(rest.len().min(PIECE));
        let fed = decoder.feed(alloc, piece)?;
        let text = Text::from_str(alloc, fed.text.as_str())?;
        pieces.push(text)?;
        rest = behind;
    }
    Ok((pieces, decoder.close(page.fault)))
}

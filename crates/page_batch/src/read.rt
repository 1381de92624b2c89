// A page's bytes, as they are read before it is parsed.
ghost use Rattle.std.specs.Prelude.{[], ◌∷◌, IfOk};
ghost use Rattle.outside.specs.Outside.{Begun, KeepsOthers};
ghost use Rattle.page_turns.specs.Calls.{EachWithin};
ghost use Rattle.page_turns.specs.Given.{ReadTo};
ghost use Rattle.page_turns.specs.declared.page.TheConstants.{PAGE_LIMIT};
ghost use Rattle.page_batch.specs.Reading.{MayRead, given_in};

use html_types::NoMemory;
use outside::{Failed, Outside, Port};
use page_turns::PAGE_LIMIT;
use std::alloc::Global;

// The most bytes of one read.
pub(crate) const PIECE: usize = 4096;

/// The bytes of a page, no further than one past the limit, and whether a read failed behind them.
#[derive(Drop)]
pub struct PageBytes {
    pub bytes: Vec<u8>,
    pub fault: bool,
}

/// What came of a page's file.
#[derive(Drop)]
pub enum PageFile {
    /// There is no such file.
    Missing,
    /// It couldn't be begun.
    Faulted,
    /// What was read of it.
    Read(PageBytes),
}

/// Begins a page and reads it.
pub(crate) fn read_page<F: Outside>(
    alloc: Global,
    files: &mut F,
    path: &str,
) -> Result<PageFile, NoMemory>
    ensures given { IfOk result (λ file. MayRead path.now (F.seen files.old) (F.seen files.new)
        (given_in file)) }
    ensures begun { Begun ((F.seen files.old).begun Port.Page) ((F.seen files.new).begun Port.Page)
        (path.now ∷ []) }
    ensures no_further { ReadTo PAGE_LIMIT Port.Page path.now (F.seen files.old)
        (F.seen files.new) }
    ensures within { EachWithin PAGE_LIMIT Port.Page (F.seen files.old) (F.seen files.new) }
    ensures others { KeepsOthers Port.Page (F.seen files.old) (F.seen files.new) }
{
    match files.begin(Port::Page, path) {
        Err(Failed) => return Ok(PageFile::Faulted),
        Ok(false) => return Ok(PageFile::Missing),
        Ok(true) => {}
    }
    let mut bytes = Vec::new(alloc);
    let mut piece = [0u8; PIECE];
    'reads: while bytes.len() <= PAGE_LIMIT {
        let room = PIECE.min(PAGE_LIMIT + 1 - bytes.len());
        let n = match files.read(Port::Page, &mut piece[..room]) {
            Err(Failed) => return Ok(PageFile::Read(PageBytes { bytes, fault: true })),
            Ok(0) => break,
            Ok(n) => n,
        };
        bytes.extend_from_slice(&piece[..n])?;
    }
    Ok(PageFile::Read(PageBytes {
        bytes,
        fault: false,
    }))
}

// The page is read piece by piece.
ghost use Rattle.std.specs.Prelude.{◌≡◌, ◌<◌, ◌≤◌, ◌∷◌, [], ℕ, List, length, take, None, Ok, IfOk};
ghost use Rattle.std.specs.Prelude.{IfErr, OnOk, OnErr};
ghost use Rattle.outside.specs.Outside.{reads, KeepsOthers};
ghost use Rattle.utf8_pieces.specs.Decoder.{HasRead};
ghost use Rattle.page_turns.specs.declared.page.TheConstants.{PAGE_LIMIT};
ghost use Rattle.page_turns.specs.Calls.{CallsAt};
ghost use Rattle.page_turns.specs.Given.{NoFault};
ghost use Rattle.page_turns.specs.Pages.{AreTaken, ClosesAt, IsReading, IsUnread};
ghost use Rattle.page_turns.specs.Cuts.{CutsOn, CutsShort};
ghost use Rattle.page_turns.specs.Along.{Hands};
ghost use Rattle.page_turns.specs.Turns.{ReadsPiece, ReadsInPart};

use crate::page::PAGE_LIMIT;
use core_steps::DocSide;
use html_types::{Ending, NoMemory};
use outside::{Failed, Outside, Port};
use std::alloc::Global;
use utf8_pieces::Decoder;

/// Where the reading of a page stands.
#[derive(Drop)]
pub(crate) struct PageReader {
    pub decoder: Decoder,
    // So many bytes may still be read.
    pub left: usize,
}

// Reads the next piece of the page, and says how many bytes it has. Where none comes, the page ends
// so.
fn read_piece<F: Outside>(
    files: &mut F,
    decoder: &Decoder,
    room: &mut [u8],
) -> Result<usize, Ending>
    ensures count { IfOk result (λ n. (0 < n) × (n ≤ length room.old)) }
    ensures taken { IfOk result
        (λ n. AreTaken ((F.seen files.old).left Port.Page) ((F.seen files.new).left Port.Page)
        (take n room.new)) }
    ensures ending { IfErr result
        (λ ending. 0 < length room.old → (read : List ℕ) → HasRead PAGE_LIMIT decoder.now read
        → ClosesAt (F.seen files.old) (F.seen files.new) read ending) }
    ensures no_fault { OnOk result (NoFault Port.Page (F.seen files.old) (F.seen files.new)) }
    ensures call { IfOk result (λ n. CallsAt Port.Page (F.seen files.old) (F.seen files.new)
        (reads (length room.old) (Ok n) ∷ [])) }
    ensures begun { (F.seen files.new).begun ≡ (F.seen files.old).begun }
    ensures open_at { (F.seen files.new).open_at ≡ (F.seen files.old).open_at }
    ensures others { KeepsOthers Port.Page (F.seen files.old) (F.seen files.new) }
{
    match files.read(Port::Page, room) {
        Err(Failed) => Err(decoder.close(true)),
        Ok(0) => Err(decoder.close(false)),
        Ok(n) => Ok(n),
    }
}

impl PageReader {
    /// Before the first read. It takes no memory.
    pub fn new(alloc: Global) -> PageReader
        ensures { IsUnread result }
    {
        PageReader {
            decoder: Decoder::new(alloc, PAGE_LIMIT),
            left: PAGE_LIMIT + 1,
        }
    }

    /// Reads the next piece of the page, of at most as many bytes as there is room, and hands in
    /// its text, and the page's ending where that shows.
    pub fn read_on<F: Outside>(
        &mut self,
        alloc: Global,
        files: &mut F,
        doc: &mut DocSide,
        room: &mut [u8],
    ) -> Result<(), NoMemory>
        requires room { 0 < length room.old }
        requires reading { IsReading self.old doc.old.journal.pieces }
        requires no_ending { doc.old.journal.ending ≡ None }
        ensures ok { OnOk result
            (ReadsPiece (F.seen files.old) (F.seen files.new) self.old self.new doc.old doc.new) }
        ensures err { OnErr result
            (ReadsInPart (F.seen files.old) (F.seen files.new) self.old doc.old doc.new) }
        ensures cut { OnOk result (CutsOn (length room.old) (F.seen files.old) (F.seen files.new)
            self.old self.new doc.old doc.new) }
        ensures cut_short { OnErr result (CutsShort (length room.old) (F.seen files.old)
            (F.seen files.new) self.old doc.old doc.new) }
        ensures handed { Hands doc.old doc.new }
        ensures begun { (F.seen files.new).begun ≡ (F.seen files.old).begun }
        ensures open_at { (F.seen files.new).open_at ≡ (F.seen files.old).open_at }
        ensures others { KeepsOthers Port.Page (F.seen files.old) (F.seen files.new) }
    {
        let most = room.len().min(self.left);
        match read_piece(files, &self.decoder, &mut room[..most]) {
            Err(ending) => doc.end(ending),
            Ok(n) => {
                self.left -= n;
                let fed = self.decoder.feed(alloc, &room[..n])?;
                doc.piece(fed.text)?;
                match fed.ending {
                    None => Ok(()),
                    Some(ending) => doc.end(ending),
                }
            }
        }
    }
}

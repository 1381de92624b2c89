// A whole file, up to a limit.
ghost use Rattle.std.specs.Prelude.{◌<◌, ◌^◌, [], ◌∷◌, IfOk};
ghost use Rattle.outside.specs.Outside.{Begun, KeepsOthers};
ghost use Rattle.page_turns.specs.Calls.{EachWithin};
ghost use Rattle.page_turns.specs.Given.{MayGive, given_of, ReadTo};

use core_steps::Fetch;
use html_types::NoMemory;
use outside::{Failed, Outside, Port};
use std::alloc::Global;

// The most bytes of one read.
const PIECE: usize = 4096;

/// Begins a file and reads it, no further than one byte past the limit: of a longer one its bytes
/// are those up to there.
pub fn read_whole<F: Outside>(
    alloc: Global,
    files: &mut F,
    port: Port,
    path: &str,
    limit: usize,
) -> Result<Fetch, NoMemory>
    requires { limit < 2 ^ 32 }
    ensures given { IfOk result
        (λ fetch. MayGive limit port path.now (F.seen files.old) (F.seen files.new)
        (given_of fetch)) }
    ensures begun { Begun ((F.seen files.old).begun port) ((F.seen files.new).begun port)
        (path.now ∷ []) }
    ensures no_further { ReadTo limit port path.now (F.seen files.old) (F.seen files.new) }
    ensures within { EachWithin limit port (F.seen files.old) (F.seen files.new) }
    ensures others { KeepsOthers port (F.seen files.old) (F.seen files.new) }
{
    match files.begin(port, path) {
        Err(Failed) => return Ok(Fetch::Faulted),
        Ok(false) => return Ok(Fetch::Missing),
        Ok(true) => {}
    }
    let mut bytes = Vec::new(alloc);
    let mut piece = [0u8; PIECE];
    'reads: while bytes.len() <= limit {
        let room = PIECE.min(limit + 1 - bytes.len());
        let n = match files.read(port, &mut piece[..room]) {
            Err(Failed) => return Ok(Fetch::Faulted),
            Ok(0) => break,
            Ok(n) => n,
        };
        bytes.extend_from_slice(&piece[..n])?;
    }
    Ok(Fetch::Got(bytes))
}

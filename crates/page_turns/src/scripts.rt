// The files of external scripts.
ghost use Rattle.std.specs.Prelude.{◌≡◌, [], ◌∷◌, true, IfOk, OnOk};
ghost use Rattle.std.specs.Str.{chars};
ghost use Rattle.outside.specs.Outside.{Begun, KeepsOthers};
ghost use Rattle.serial.specs.Scripts.{is_lawful};
ghost use Rattle.page_turns.specs.Given.{MayGive, given_of};
ghost use Rattle.page_turns.specs.Scripts.{path_of, BeginsFile};

use crate::fetch::read_whole;
use core_steps::Fetch;
use html_types::NoMemory;
use outside::{Outside, Port};
use std::alloc::Global;

/// The most bytes of a script's file.
pub const SCRIPT_LIMIT: usize = 1_048_576;

/// Fetches the script of that name, which is lawful, from the folder.
pub fn fetch_script<F: Outside>(
    alloc: Global,
    files: &mut F,
    dir: &str,
    name: &str,
) -> Result<Fetch, NoMemory>
    requires { is_lawful (chars name.now) ≡ true }
    ensures given { IfOk result
        (λ fetch. MayGive SCRIPT_LIMIT Port.Script (path_of dir.now (chars name.now))
        (F.seen files.old) (F.seen files.new) (given_of fetch)) }
    ensures begun { OnOk result
        (Begun ((F.seen files.old).begun Port.Script) ((F.seen files.new).begun Port.Script)
        (path_of dir.now (chars name.now) ∷ [])) }
    ensures begins { BeginsFile dir.now (chars name.now) (F.seen files.old) (F.seen files.new) }
    ensures others { KeepsOthers Port.Script (F.seen files.old) (F.seen files.new) }
{
    let path = format!(in alloc; "{dir}/{name}")?;
    read_whole(alloc, files, Port::Script, path.as_str(), SCRIPT_LIMIT)
}

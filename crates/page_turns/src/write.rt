// The sink is called until it has all, or has failed.
ghost use Rattle.std.specs.Prelude.{◌≡◌, ◌≤◌, OnOk, OnErr};
ghost use Rattle.outside.specs.Outside.{Rose};
ghost use Rattle.page_turns.specs.Taken.{Took, TookFront};

use outside::{Failed, Sink};

/// Writes all the bytes, or a front of them where the sink fails. One that takes nothing of a piece
/// that isn't empty has failed.
pub fn write_all<K: Sink>(out: &mut K, bytes: &[u8]) -> Result<(), Failed>
    ensures ok { OnOk result (Took (K.taken out.old) (K.taken out.new) bytes.now) }
    ensures err { OnErr result (TookFront (K.taken out.old) (K.taken out.new) bytes.now) }
    ensures cause { OnErr result (Rose (K.faults out.old) (K.faults out.new)) }
    ensures faults { K.faults out.old ≤ K.faults out.new }
{
    let mut rest = bytes;
    while !rest.is_empty() {
        let n = out.write(rest)?;
        if n == 0 {
            return Err(Failed);
        }
        rest = &rest[n..];
    }
    Ok(())
}

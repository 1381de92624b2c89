// The parser's side, as the document's side has it.
ghost use Rattle.std.specs.Prelude.{◌≡◌, ◌≤◌, ◌<◌, Bool, List, Option, Some, suc, nat_lt, IfOk};
ghost use Rattle.std.specs.Prelude.{OnOk, OnErr};
ghost use Rattle.speculation.specs.Asking.{Asked, Told};
ghost use Rattle.page_turns.specs.Messages.{Adds, TellsOn};
ghost use Rattle.page_turns.specs.Turns.{Load, under_way, Asks, Answers};

use entity_table::Table;
use html_types::NoMemory;
use speculation::{InForce, Reply, Request};

/// The parser's side, in this thread or in one of its own: requests go to it, and it gives a reply
/// to each, in order.
pub trait Counterpart<E: InForce> {
    /// What is under way.
    ghost load: { Self → Load };

    /// The requests that were put, where they are told.
    ghost put: { Self → Option (List Asked) };

    /// What was taken, where it is told: none in place of a reply is the word of want of memory.
    ghost taken: { Self → Option (List (Option Told)) };

    /// Whether what was taken is known to be the replies to the first requests that were put, in
    /// order, where both are told. It stays so, and what is told is told on, until a call is
    /// refused.
    ghost ordered: { Self → Bool };

    /// Whether fewer than so many are under way.
    fn has_room(&self, ahead: usize) -> bool
        requires { under_way (load self.now) ≤ 64 }
        ensures { result ≡ nat_lt (under_way (load self.now)) ahead };

    /// Puts a request behind all others.
    fn ask(&mut self, request: Request) -> Result<(), NoMemory>
        requires { under_way (load self.old) ≤ 64 }
        ensures load { OnOk result (Asks (load self.old) (load self.new)) }
        ensures put { Adds (put self.old) (put self.new) request }
        ensures taken { taken self.new ≡ taken self.old }
        ensures tells { OnOk result (TellsOn E.entities (put self.old) (put self.new)
            (taken self.old) (taken self.new) (ordered self.old) (ordered self.new)) };

    /// Where the parser's side is in this thread, it makes one event: says whether there was one to
    /// make.
    fn answer(&mut self, table: &Table) -> Result<bool, NoMemory>
        requires { table.now ≡ E.entities }
        ensures load { IfOk result (λ some. Answers some (load self.old) (load self.new)) }
        ensures put { put self.new ≡ put self.old }
        ensures taken { taken self.new ≡ taken self.old }
        ensures tells { OnOk result (TellsOn E.entities (put self.old) (put self.new)
            (taken self.old) (taken self.new) (ordered self.old) (ordered self.new)) };

    /// Takes the reply that is given next.
    fn take(&mut self) -> Result<Reply<E>, NoMemory>
        requires { 0 < (load self.old).replies }
        ensures load { OnOk result
            (load self.old ≡ record (load self.new) { replies = suc (load self.new).replies }) }
        ensures put { put self.new ≡ put self.old }
        ensures taken { IfOk result (λ reply. Adds (taken self.old) (taken self.new)
            (Some reply.said)) }
        ensures tells { OnOk result (TellsOn E.entities (put self.old) (put self.new)
            (taken self.old) (taken self.new) (ordered self.old) (ordered self.new)) }
        // Want of memory is the last that is taken, or a reply that came to nothing.
        ensures refused { OnErr result ((last : Option Told)
            × Adds (taken self.old) (taken self.new) last) };
}

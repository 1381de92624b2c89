// Scripts that are fetched before they are awaited.
ghost use Rattle.std.specs.Prelude.{◌≡◌, ◌≤◌, ℕ, IfOk, OnErr};
ghost use Rattle.page_turns.specs.Scripts.{Met, Crew};
ghost use Rattle.page_turns.specs.Early.{TakesNext};

use core_steps::{Fetch, Journal};
use html_types::{NoMemory, Text};
use speculation::{InForce, Reply};

/// What comes next of those who fetch early.
#[derive(Drop)]
pub enum Early {
    /// No answer is to come for the name: nobody was asked for it, or it was answered.
    Unasked,
    /// An answer that says nothing of a script.
    Nothing,
    /// What came of the script of this name, which hadn't arrived.
    Came(Text, Fetch),
}

/// Those who fetch scripts before they are awaited.
pub trait Prefetch<E: InForce> {
    /// Who they are, which stays.
    ghost crew: { Self → Crew };

    /// What was given so far.
    ghost given: { Self → Met };

    /// Each answer that is taken makes it less.
    ghost to_come: { Self → ℕ };

    /// A reply is about to be taken in its epoch: the scripts that it makes may be asked for, but
    /// those that have arrived.
    fn hear(&mut self, reply: &Reply<E>, journal: &Journal)
        ensures given { given self.new ≡ given self.old }
        ensures crew { crew self.new ≡ crew self.old }
        ensures to_come { to_come self.new ≤ to_come self.old };

    /// Takes the answer that comes next of the one who was asked for the script of that name,
    /// waiting for it. It may be that of another script.
    fn next(&mut self, name: &str, journal: &Journal) -> Result<Early, NoMemory>
        ensures crew { crew self.new ≡ crew self.old }
        ensures next { IfOk result (λ early. TakesNext early journal.now.fetches (given self.old)
            (given self.new) (to_come self.old) (to_come self.new)) }
        ensures err { OnErr result (given self.new ≡ given self.old) };
}

/// Nobody: no script is fetched before it is awaited.
#[derive(Drop)]
pub struct Nobody;

impl<E: InForce> Prefetch<E> for Nobody {
    ghost use Rattle.std.specs.Prelude.{[]};

    ghost crew = { λ n. record { dir = []; used = 0; was = [] } };

    ghost given = { λ n. [] };

    ghost to_come = { λ n. 0 };

    fn hear(&mut self, _reply: &Reply<E>, _journal: &Journal) {}

    fn next(&mut self, _name: &str, _journal: &Journal) -> Result<Early, NoMemory> {
        Ok(Early::Unasked)
    }
}

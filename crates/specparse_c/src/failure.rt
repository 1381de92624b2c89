//! Why a call gives nothing, as a status.

ghost use Rattle.std.specs.Prelude.{◌≡◌};
ghost use Rattle.specparse_c.specs.Statuses.{status_of, failure_of, failure_by, failure_at};

use entity_table::TableFault;
use html_document::Refused;
use html_types::{NoMemory, Why};

/// Why a call gives nothing.
#[derive(Clone, Copy)]
pub enum Failure {
    /// The words name no element that a fragment could be parsed inside.
    Context,
    Entities,
    BadUtf8,
    /// A limit is passed.
    Limit,
    NoMemory,
}

impl Failure {
    /// The status that says so.
    pub fn status(self) -> u32
        ensures { result ≡ status_of self }
    {
        match self {
            Failure::Context => 2,
            Failure::Entities => 3,
            Failure::BadUtf8 => 4,
            Failure::Limit => 5,
            Failure::NoMemory => 12,
        }
    }

    /// That a page or a fragment is refused.
    pub fn of(refused: Refused) -> Failure
        ensures { result ≡ failure_of refused }
    {
        match refused {
            Refused::NoMemory => Failure::NoMemory,
            Refused::Parse(why) => Failure::by(why),
        }
    }

    /// That its parse is refused for that.
    pub fn by(why: Why) -> Failure
        ensures { result ≡ failure_by why }
    {
        match why {
            Why::BadUtf8 => Failure::BadUtf8,
            Why::Depth => Failure::Limit,
            Why::Writes => Failure::Limit,
            Why::Page => Failure::Limit,
            Why::Fault => Failure::Limit,
        }
    }

    /// That the entities aren't read.
    pub fn at(fault: TableFault) -> Failure
        ensures { result ≡ failure_at fault }
    {
        match fault {
            TableFault::NotTable => Failure::Entities,
            TableFault::NoMemory => Failure::NoMemory,
        }
    }
}

impl From<NoMemory> for Failure {
    ghost use Rattle.std.specs.Prelude.{◌≡◌};
    ghost use Rattle.specparse_c.specs.declared.failure.Failure.TheVariants as failure;

    ghost from_gives = { λ _ e. e ≡ failure.NoMemory };

    fn from(_error: NoMemory) -> Failure {
        Failure::NoMemory
    }
}

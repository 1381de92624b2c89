// How a run ends.
ghost use Rattle.std.specs.Prelude.{◌≡◌};
ghost use Rattle.page_runner.specs.Status.{exit_of};

/// A limit that a parse can reach.
#[derive(Clone, Copy, PartialEq, Eq)]
pub enum Limit {
    /// More than 512 open elements.
    Depth,
    /// More than 1,048,576 characters written by scripts.
    Writes,
    /// A page of more than 1,073,741,824 bytes.
    Page,
}

/// How a run ends.
#[derive(Clone, Copy, PartialEq, Eq)]
pub enum Status {
    /// The parse finished, and all was written.
    Done,
    /// The words aren't in the command's grammar.
    Usage,
    /// The entities file isn't one.
    Entities,
    /// The parse met bytes that aren't UTF-8.
    BadUtf8,
    /// The parse reached this limit.
    Limit(Limit),
    /// Reading a file failed.
    ReadFault,
    /// Writing failed.
    WriteFault,
    /// There is no such page, list of pages or entities file.
    Absent,
    /// The list of pages isn't one.
    List,
    /// Memory ran out.
    NoMemory,
}

impl Status {
    /// The exit status of the program.
    pub fn exit(&self) -> u8
        ensures { result ≡ exit_of self.now }
    {
        match self {
            Status::Done => 0,
            Status::Usage => 2,
            Status::Entities => 3,
            Status::BadUtf8 => 4,
            Status::Limit(_) => 5,
            Status::ReadFault => 7,
            Status::WriteFault => 8,
            Status::Absent => 9,
            Status::List => 11,
            Status::NoMemory => 12,
        }
    }
}

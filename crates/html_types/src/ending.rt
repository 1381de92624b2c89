//! How a page ends, and why a parse is refused.

/// How the bytes of a page end.
#[derive(Clone, Copy, PartialEq, Eq)]
pub enum Ending {
    /// At the end of the file.
    End,
    /// At bytes that aren't UTF-8.
    Bad,
    /// At the limit of a page, behind which there are more bytes.
    Long,
    /// At a read that failed.
    Fault,
}

/// Why a parse is refused.
#[derive(Clone, Copy, PartialEq, Eq)]
pub enum Why {
    BadUtf8,
    /// More than 512 open elements.
    Depth,
    /// More than 1,048,576 characters written by scripts.
    Writes,
    /// A page of more than 1,073,741,824 bytes.
    Page,
    /// A read that failed.
    Fault,
}

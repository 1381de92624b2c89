//! The verdict on what was parsed ahead of a script.

/// What becomes of the text that was parsed ahead, now that a script has ended and all that it
/// wrote is used.
#[derive(Clone, Copy, PartialEq, Eq)]
pub enum Verdict {
    /// The parser's state is the one from which that text was parsed: what was made of it is
    /// executed.
    Keep,
    /// It is another: what was made is thrown away, and the text is sent again.
    Rewind,
}

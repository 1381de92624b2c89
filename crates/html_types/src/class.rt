//! Classes of characters: all that the tokenizer's rows tell apart.

/// What a row of the tokenizer sees of the next character, or the end of the input.
#[derive(Clone, Copy)]
pub enum Class {
    /// U+0000
    Nul,
    /// TAB, LF, FF, SPACE
    Space,
    /// `!`
    Bang,
    /// `"`
    DoubleQuote,
    /// `#`
    Hash,
    /// `&`
    Ampersand,
    /// `'`
    SingleQuote,
    /// `-`
    Hyphen,
    /// `/`
    Slash,
    /// `0` to `9`
    Digit,
    /// `;`
    Semicolon,
    /// `<`
    Less,
    /// `=`
    Equals,
    /// `>`
    Greater,
    /// `?`
    Question,
    /// An ASCII letter
    Alpha,
    /// `[`
    LeftBracket,
    /// `]`
    RightBracket,
    /// Any other character
    Other,
    /// The end of the input
    InputEnd,
}

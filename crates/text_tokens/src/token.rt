// Tokens: the least parts of a text that mean something.
use pu_base::PlSmallStr;

/// A token of a text.
#[derive(Debug, Drop)]
pub enum Token {
    /// A word: a letter a to z or `_`, and then such letters and digits.
    Word(PlSmallStr),
    /// A run of digits 0 to 9.
    Digits(PlSmallStr),
    /// A name that stands in double quotes, without them.
    Name(PlSmallStr),
    /// A text that stands in single quotes, without them.
    Text(PlSmallStr),
    /// A sign.
    Sign(Sign),
}

/// The signs of the language.
#[derive(Clone, Copy, Debug, PartialEq, Eq)]
pub enum Sign {
    /// `|`
    Bar,
    /// `,`
    Comma,
    /// `=`
    Is,
    /// `==`
    Equal,
    /// `!=`
    NotEqual,
    /// `<=`
    AtMost,
    /// `>=`
    AtLeast,
    /// `<`
    Below,
    /// `>`
    Above,
    /// `+`
    Plus,
    /// `-`
    Minus,
    /// `*`
    Times,
    /// `//`
    Over,
    /// `%`
    Modulo,
    /// `(`
    Open,
    /// `)`
    Close,
}

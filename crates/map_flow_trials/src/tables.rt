//! What a map answers, in each stage, to the states of its input and of its output.

/// One that takes its input: that gets ready, and its output is blocked meanwhile. Once its input is done it is ready to give
/// its table. Once its output is done, all is.
pub const TAKES: &str = "
*/D -> D/D
D/* -> D/R
*/* -> R/B
";

/// One whose table isn't filled in yet: it blocks its output, though its input is done.
pub const WAITS: &str = "
*/D -> D/D
D/* -> D/B
*/* -> R/B
";

/// One that gives its table: its input stays done.
pub const GIVES: &str = "
*/D -> D/D
*/* -> D/R
";

/// One that is done stays so.
pub const OVER: &str = "*/* -> D/D";

// Runs of bytes of one class.
ghost use Rattle.std.specs.Prelude.{◌≡◌, ◌≤◌, ◌++◌, false, IsTrue, length, take, drop};
ghost use Rattle.std.specs.List.{list_all};
ghost use Rattle.text_tokens.specs.Runs.{begins, is_in};

/// The classes of bytes, all of them below 128, of which runs are read.
#[derive(Clone, Copy, Debug, PartialEq, Eq)]
pub enum Class {
    /// A space or a newline.
    Blank,
    /// A digit 0 to 9.
    Digit,
    /// A letter a to z, or `_`.
    Letter,
    /// A letter or a digit.
    Word,
}

impl Class {
    /// Whether a byte is of this class.
    pub fn has(self, byte: u8) -> bool
        ensures { result ≡ is_in self byte }
    {
        match self {
            Class::Blank => byte == b' ' || byte == b'\n',
            Class::Digit => byte.is_ascii_digit(),
            Class::Letter => byte.is_ascii_lowercase() || byte == b'_',
            Class::Word => byte.is_ascii_lowercase() || byte == b'_' || byte.is_ascii_digit(),
        }
    }
}

/// Whether a text begins with a byte of a class.
pub fn begins_with(text: &str, class: Class) -> bool
    ensures { result ≡ begins (is_in class) text.now }
{
    match text.as_bytes() {
        [] => false,
        [first, ..] => class.has(*first),
    }
}

/// How many bytes of a class stand at the front.
fn run_len(bytes: &[u8], class: Class) -> usize
    ensures within { result ≤ length bytes.now }
    ensures run { IsTrue (list_all (is_in class) (take result bytes.now)) }
    ensures ends { begins (is_in class) (drop result bytes.now) ≡ false }
{
    for (i, byte) in bytes.iter().enumerate() {
        if !class.has(*byte) {
            return i;
        }
    }
    bytes.len()
}

/// The longest run of a class at the front of a text, and what stands behind it.
pub fn split_run(text: &str, class: Class) -> (&str, &str)
    ensures split { text.now ≡ result.0.now ++ result.1.now }
    ensures run { IsTrue (list_all (is_in class) result.0.now) }
    ensures ends { begins (is_in class) result.1.now ≡ false }
{
    // The bytes of the run are ASCII, so that no character is cut.
    text.split_at(run_len(text.as_bytes(), class))
}

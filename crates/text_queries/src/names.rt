// Which texts are words, and which words are no names.
ghost use Rattle.std.specs.Prelude.{◌≡◌, ◌&&◌};
ghost use Rattle.std.specs.List.{list_all};
ghost use Rattle.text_queries.specs.Grammar.{is_reserved};
ghost use Rattle.text_tokens.specs.Runs.{begins, is_letter, is_word_byte};

/// Whether a text is a word: a letter a to z or `_`, and then such letters and digits.
pub fn is_word(text: &str) -> bool
    ensures { result ≡ (begins is_letter text.now && list_all is_word_byte text.now) }
{
    begins_with_letter(text) && has_word_bytes_alone(text)
}

/// Whether a word is no name, unless it is quoted.
pub fn is_reserved(word: &str) -> bool
    ensures { result ≡ is_reserved word.now }
{
    match word {
        "from" => true,
        "filter" => true,
        "select" => true,
        "with" => true,
        "group" => true,
        "agg" => true,
        "sort" => true,
        "slice" => true,
        "distinct" => true,
        "join" => true,
        "on" => true,
        "desc" => true,
        "or" => true,
        "and" => true,
        "true" => true,
        "false" => true,
        "null" => true,
        _ => false,
    }
}

/// Whether a text begins with a letter a to z or `_`.
fn begins_with_letter(text: &str) -> bool
    ensures { result ≡ begins is_letter text.now }
{
    match text.as_bytes() {
        [] => false,
        [first, ..] => first.is_ascii_lowercase() || *first == b'_',
    }
}

/// Whether each byte is a letter a to z, `_` or a digit.
fn has_word_bytes_alone(text: &str) -> bool
    ensures { result ≡ list_all is_word_byte text.now }
{
    text.bytes().all(|byte| byte.is_ascii_lowercase() || byte == b'_' || byte.is_ascii_digit())
}

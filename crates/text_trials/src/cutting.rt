// Texts, with their tokens written with single spaces between, or none where a text isn't cut into tokens.
use std::alloc::Global;
use std::test::Fail;
use text_tokens::error::TextError;
use text_tokens::{read_tokens, write_tokens};

/// The tokens of a text with single spaces between; none where it isn't cut into tokens.
fn respaced(alloc: Global, text: &str) -> Result<Option<String>, TextError> {
    match read_tokens(alloc, text) {
        Ok(tokens) => Ok(Some(write_tokens(alloc, &tokens)?)),
        Err(TextError::NoReading) => Ok(None),
        Err(error) => Err(error),
    }
}

/// Whether each text is cut as is wanted.
fn holds(alloc: Global, rows: &[(&str, Option<&str>)]) -> Result<bool, TextError> {
    for (text, wanted) in rows {
        let same = match (respaced(alloc, text)?, wanted) {
            (Some(found), Some(wanted)) => found.as_str() == *wanted,
            (None, None) => true,
            _ => false,
        };
        if !same {
            return Ok(false);
        }
    }
    Ok(true)
}

#[test]
fn texts_are_cut_into_tokens(rt: HostRuntime) -> Result<(), Fail> {
    let rows = [
        ("", Some("")),
        ("from t|filter a>1", Some("from t | filter a > 1")),
        ("a//b", Some("a // b")),
        ("a==-1", Some("a == - 1")),
        ("a===b", Some("a == = b")),
        ("a<=b>=c<d>e", Some("a <= b >= c < d > e")),
        ("a!=b%c*d", Some("a != b % c * d")),
        ("x=len(),y", Some("x = len ( ) , y")),
        ("1and 2", Some("1 and 2")),
        ("a1_b 007", Some("a1_b 007")),
        ("from\nt\n|\n distinct", Some("from t | distinct")),
        ("'it''s'", Some("'it''s'")),
        ("'a''b'''", Some("'a''b'''")),
        ("''", Some("''")),
        ("\"a\"\"b\"'c'", Some("\"a\"\"b\" 'c'")),
        ("'é'\"ü\"", Some("'é' \"ü\"")),
        (" from t", None),
        ("\nfrom t", None),
        ("from t ", None),
        ("from t\n", None),
        ("from\tt", None),
        ("a\r\nb", None),
        ("a ! b", None),
        ("a / b", None),
        ("A", None),
        ("é", None),
        ("'a", None),
        ("'a''b", None),
        ("\"a'", None),
    ];
    assert!(rt; holds(rt.alloc(), &rows)?);
    Ok(())
}

// A text of so many words with a sign and a quoted text behind each, with single spaces between.
fn long_text(alloc: Global, count: u32) -> Result<String, TextError> {
    let mut text = String::new(alloc);
    text.push_str("from t")?;
    for _ in 0..count {
        text.push_str(" | a_1 // 'it''s'")?;
    }
    Ok(text)
}

#[test]
fn long_texts_are_cut_too(rt: HostRuntime) -> Result<(), Fail> {
    let text = long_text(rt.alloc(), 5000)?;
    let Some(found) = respaced(rt.alloc(), text.as_str())? else {
        return Err(Fail::from("no tokens"));
    };
    assert!(rt; found.as_str() == text.as_str());
    Ok(())
}

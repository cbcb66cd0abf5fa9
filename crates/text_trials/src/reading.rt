// Texts, with how their queries are printed.
//
// A line below is a text, and behind ` -> ` how its query is printed: its tokens with single spaces between, with
// parentheses about each operand that is an operator's tree. `none` stands for a text without a reading. A line that begins
// with `#` says what the lines below it are about.
use std::alloc::Global;
use std::test::Fail;
use text_printing::print_query;
use text_reading::read_query;
use text_tokens::error::TextError;

const TEXTS: &str = r##"
# operators bind as the grammar says
from t | filter a or b and c -> from t | filter a or ( b and c )
from t | filter a and b or c -> from t | filter ( a and b ) or c
from t | filter a and b == c -> from t | filter a and ( b == c )
from t | filter a == b and c -> from t | filter ( a == b ) and c
from t | filter a == b + c -> from t | filter a == ( b + c )
from t | filter a + b < c -> from t | filter ( a + b ) < c
from t | filter a + b * c -> from t | filter a + ( b * c )
from t | filter a * b + c -> from t | filter ( a * b ) + c
from t | filter a // b - c % d -> from t | filter ( a // b ) - ( c % d )
from t | filter a != b -> from t | filter a != b
from t | filter a <= b -> from t | filter a <= b
from t | filter a >= b -> from t | filter a >= b
from t | filter a > b -> from t | filter a > b
from t | filter a < b -> from t | filter a < b
from t | filter a < b < c -> none
from t | filter a == b != c -> none
from t | filter a < ( b < c ) -> from t | filter a < ( b < c )
from t | filter ( a < b ) < c -> from t | filter ( a < b ) < c
# chains group from the left
from t | filter a - b - c -> from t | filter ( a - b ) - c
from t | filter a - b + c - d -> from t | filter ( ( a - b ) + c ) - d
from t | filter a // b // c -> from t | filter ( a // b ) // c
from t | filter a * b % c -> from t | filter ( a * b ) % c
from t | filter a or b or c -> from t | filter ( a or b ) or c
from t | filter a and b and c -> from t | filter ( a and b ) and c
from t | filter a - ( b - c ) -> from t | filter a - ( b - c )
# minus is unary before digits alone
from t | filter -5 -> from t | filter - 5
from t | filter - 5 -> from t | filter - 5
from t | filter a -5 -> from t | filter a - 5
from t | filter a--5 -> from t | filter a - - 5
from t | filter a - -5 -> from t | filter a - - 5
from t | filter a-5 -> from t | filter a - 5
from t | filter -a -> none
from t | filter -(1) -> none
from t | filter --5 -> none
from t | filter 0 -9223372036854775808 -> none
from t | filter 007 -> from t | filter 7
from t | filter -0 -> from t | filter 0
from t | filter 1 - 0 -> from t | filter 1 - 0
from t | filter 9223372036854775807 -> from t | filter 9223372036854775807
from t | filter 9223372036854775808 -> none
from t | filter -9223372036854775808 -> from t | filter - 9223372036854775808
from t | filter -9223372036854775809 -> none
from t | filter 00000000000000000000000000000000000000000000000000000012 -> from t | filter 12
# tokens are as long as they can be
from t | filter a//b -> from t | filter a // b
from t | filter a==-1 -> from t | filter a == - 1
from t | filter a<=b -> from t | filter a <= b
from t | filter a!=b -> from t | filter a != b
from t | filter a = = b -> none
from t | filter a === b -> none
from t | filter a ! b -> none
from t | filter a / b -> none
from t | filter a & b -> none
from t | filter 1and 2 -> from t | filter 1 and 2
from t | sort adesc -> from t | sort adesc
from t | sort 1desc -> from t | sort 1 desc
from t|filter a>1 -> from t | filter a > 1
# names and texts in quotes
from t | filter "a b" -> from t | filter "a b"
from t | filter "from" -> from t | filter "from"
from t | filter "a" -> from t | filter a
from t | filter "a""b" -> from t | filter "a""b"
from t | filter "" -> from t | filter ""
from t | filter "len" -> from t | filter len
from t | filter 'it''s' -> from t | filter 'it''s'
from t | filter '' -> from t | filter ''
from t | filter '"' -> from t | filter '"'
from t | filter 'a | b' -> from t | filter 'a | b'
from t | filter "é" -> from t | filter "é"
from t | filter 'é' -> from t | filter 'é'
from t | filter 'a -> none
from t | filter 'a''b -> none
from t | filter "a -> none
from t | filter a' -> none
from t | filter From -> none
from t | filter é -> none
from t | filter min -> from t | filter min
from t | filter cross -> from t | filter cross
from t | filter int -> from t | filter int
from t | filter _a1 -> from t | filter _a1
from t | filter from -> none
from t | filter filter -> none
from t | filter select -> none
from t | filter with -> none
from t | filter group -> none
from t | filter agg -> none
from t | filter sort -> none
from t | filter slice -> none
from t | filter distinct -> none
from t | filter join -> none
from t | filter on -> none
from t | filter desc -> none
from t | filter or -> none
from t | filter and -> none
from t | filter null -> none
from "filter" | distinct -> from "filter" | distinct
from filter -> none
# primaries
from t | filter true -> from t | filter true
from t | filter false -> from t | filter false
from t | filter null bool -> from t | filter null bool
from t | filter null int -> from t | filter null int
from t | filter null idx -> from t | filter null idx
from t | filter null str -> from t | filter null str
from t | filter null -> none
from t | filter null float -> none
from t | filter null "int" -> none
from t | filter min(a) -> from t | filter min ( a )
from t | filter max(a) -> from t | filter max ( a )
from t | filter first(a) -> from t | filter first ( a )
from t | filter last(a) -> from t | filter last ( a )
from t | filter sum(a) -> from t | filter sum ( a )
from t | filter n_unique(a) -> from t | filter n_unique ( a )
from t | filter count(a) -> from t | filter count ( a )
from t | filter not(a) -> from t | filter not ( a )
from t | filter is_null(a) -> from t | filter is_null ( a )
from t | filter is_not_null(a) -> from t | filter is_not_null ( a )
from t | filter min((a)) -> from t | filter min ( a )
from t | filter not (a or b) -> from t | filter not ( a or b )
from t | filter not(a) or b -> from t | filter not ( a ) or b
from t | filter not a -> none
from t | filter min() -> none
from t | filter "min"(a) -> none
from t | filter foo(a) -> none
from t | filter len(a) -> none
from t | filter len() -> from t | filter len ( )
from t | filter ((a)) -> from t | filter a
from t | filter (a -> none
from t | filter a) -> none
from t | filter () -> none
from t | filter a b -> none
# stages
from t -> from t
from -> none
t -> none
from 't' -> none
from t | -> none
from t | | distinct -> none
from t distinct -> none
from t | filter -> none
from t | filter a, -> none
from t | filter a = 1 -> none
from t | select x=a -> from t | select x = a
from t | select x = a , y = b + 1 -> from t | select x = a , y = b + 1
from t | select a -> none
from t | select x = a, -> none
from t | select -> none
from t | with "with" = 1 -> from t | with "with" = 1
from t | select 'x' = a -> none
from t | group k = a agg s = sum(b), n = len() -> from t | group k = a agg s = sum ( b ) , n = len ( )
from t | group k = a -> none
from t | group agg n = len() -> none
from t | sort a desc, b -> from t | sort a desc , b
from t | sort a asc -> none
from t | sort x = a -> none
from t | sort desc -> none
from t | sort a + 1 desc -> from t | sort a + 1 desc
from t | slice -1 2 -> from t | slice - 1 2
from t | slice 0 18446744073709551615 -> from t | slice 0 18446744073709551615
from t | slice 0 18446744073709551616 -> none
from t | slice 1 -> none
from t | slice 1 -2 -> none
from t | slice 9223372036854775808 1 -> none
from t | slice 1 02 -> from t | slice 1 2
from t | distinct -> from t | distinct
from t | distinct a -> none
from t | join inner u on a, b -> from t | join inner u on a , b
from t | join left u on a, b -> from t | join left u on a , b
from t | join right u on a, b -> from t | join right u on a , b
from t | join full u on a, b -> from t | join full u on a , b
from t | join semi u on a, b -> from t | join semi u on a , b
from t | join anti u on a, b -> from t | join anti u on a , b
from t | join cross u -> from t | join cross u
from t | join cross u on a -> none
from t | join left u -> none
from t | join left u on -> none
from t | join outer u on a -> none
from t | join "inner" u on a -> none
from t | join inner u on a + 1 -> none
from t | join cross u | join semi v on k | distinct -> from t | join cross u | join semi v on k | distinct
"##;

/// How the query of a text is printed; none where the text has no reading.
fn printed(alloc: Global, text: &str) -> Result<Option<String>, TextError> {
    match read_query(alloc, text) {
        Ok(query) => Ok(Some(print_query(alloc, &query)?)),
        Err(TextError::NoReading) => Ok(None),
        Err(error) => Err(error),
    }
}

/// What is printed of a text, and of what is printed: nothing where both are as is wanted.
fn flaw(alloc: Global, line: &str) -> Result<String, Fail> {
    let Some((text, wanted)) = line.split_once(" -> ") else {
        return Err(Fail::from("a line without an answer"));
    };
    let found = match printed(alloc, text)? {
        Some(found) => found,
        None => String::from_str(alloc, "none")?,
    };
    let again = match printed(alloc, found.as_str())? {
        Some(again) => again,
        None => String::from_str(alloc, "none")?,
    };
    if found.as_str() == wanted && again.as_str() == wanted {
        return Ok(String::new(alloc));
    }
    Ok(format!(in alloc; "{text} gives {found}, and that {again}\n")?)
}

#[test]
fn texts_read_as_the_grammar_says(rt: HostRuntime) -> Result<(), Fail> {
    let mut flaws = String::new(rt.alloc());
    for line in TEXTS.trim().lines() {
        if !line.starts_with("#") {
            flaws.push_str(flaw(rt.alloc(), line)?.as_str())?;
        }
    }
    assert_eq!(rt; flaws.as_str(), "");
    Ok(())
}

/// Whether a text has a reading.
fn reads(alloc: Global, text: &str) -> Result<bool, TextError> {
    Ok(printed(alloc, text)?.is_some())
}

#[test]
fn spaces_and_newlines_stand_between_tokens_alone(rt: HostRuntime) -> Result<(), Fail> {
    let rows = [
        ("from t | filter -\n5", true),
        ("from\nt\n|\n distinct", true),
        (" from t", false),
        ("from t ", false),
        ("from t\n", false),
        ("from\tt", false),
        ("from t\r\n| distinct", false),
        ("", false),
        (" ", false),
    ];
    for (text, wanted) in rows {
        assert!(rt; reads(rt.alloc(), text)? == wanted);
    }
    Ok(())
}

/// A text with so many copies of a piece in the middle.
fn repeated(
    alloc: Global,
    before: &str,
    piece: &str,
    count: usize,
    after: &str,
) -> Result<String, TextError> {
    let mut text = String::from_str(alloc, before)?;
    for _ in 0..count {
        text.push_str(piece)?;
    }
    text.push_str(after)?;
    Ok(text)
}

/// Whether a text that is nested so deep, in parentheses about `inner`, has a reading.
fn nests(alloc: Global, count: usize, inner: &str) -> Result<bool, TextError> {
    let opened = repeated(alloc, "from t | filter ", "(", count, inner)?;
    let text = repeated(alloc, opened.as_str(), ")", count, "")?;
    reads(alloc, text.as_str())
}

/// Whether a chain of so many `+` has a reading. It may be deeper than what is printed so that it reads again.
fn chains(alloc: Global, count: usize) -> Result<bool, TextError> {
    let text = repeated(alloc, "from t | filter a", "+a", count, "")?;
    match read_query(alloc, text.as_str()) {
        Ok(_) => Ok(true),
        Err(TextError::NoReading) => Ok(false),
        Err(error) => Err(error),
    }
}

#[test]
fn parentheses_nest_a_hundred_deep_and_expressions_two_hundred(
    rt: HostRuntime,
) -> Result<(), Fail> {
    let alloc = rt.alloc();
    assert!(rt; nests(alloc, 100, "a")?);
    assert!(rt; !nests(alloc, 101, "a")?);
    assert!(rt; nests(alloc, 99, "len()")?);
    assert!(rt; !nests(alloc, 100, "len()")?);
    assert!(rt; nests(alloc, 99, "min(a)")?);
    assert!(rt; !nests(alloc, 100, "min(a)")?);
    assert!(rt; !nests(alloc, 100_000, "a")?);
    assert!(rt; chains(alloc, 199)?);
    assert!(rt; !chains(alloc, 200)?);
    assert!(rt; !chains(alloc, 500_000)?);
    Ok(())
}

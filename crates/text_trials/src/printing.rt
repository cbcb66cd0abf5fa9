// Queries that are built by hand, with their texts worked out from the rules.
use ps_frame::expr::Operator;
use ps_frame::items::Items;
use ps_frame::value::DataType;
use ps_meaning::options::JoinType;
use pu_base::PlSmallStr;
use std::alloc::Global;
use std::test::Fail;
use text_printing::print_query;
use text_queries::query::{Item, Key, Query, Stage, TextExpr};
use text_queries::words::TextFn;
use text_tokens::error::TextError;

// An expression a line, in postfix order, and how it is printed. A name has `@` before it and a text `'`; a `~` in them is
// a space.
const EXPRESSIONS: &str = "\
@a @b @c and or => a or ( b and c )
@a @b and @c or => ( a and b ) or c
@a @b or @c and => ( a or b ) and c
@a @b - @c - => ( a - b ) - c
@a @b @c - - => a - ( b - c )
@a @b + @c * => ( a + b ) * c
@a @b @c * + => a + ( b * c )
@a @b // @c % => ( a // b ) % c
@a @b == => a == b
@a @b != => a != b
@a @b < @c < => ( a < b ) < c
@a @b <= => a <= b
@a @b > => a > b
@a @b >= => a >= b
@a -5 - => a - - 5
-5 @a - => - 5 - a
5 => 5
-5 => - 5
0 => 0
-1 => - 1
9223372036854775807 => 9223372036854775807
-9223372036854775808 => - 9223372036854775808
@from => \"from\"
@null => \"null\"
@desc => \"desc\"
@len => len
@min => min
@cross => cross
@int => int
@fromage => fromage
@_a1 => _a1
@_ => _
@1a => \"1a\"
@A => \"A\"
@aB => \"aB\"
@é => \"é\"
@two~words => \"two words\"
@ => \"\"
@a\"b => \"a\"\"b\"
@\" => \"\"\"\"
@it's => \"it's\"
'it's => 'it''s'
'' => ''''
' => ''
'a => 'a'
'a\"b => 'a\"b'
true => true
false => false
null:bool => null bool
null:int => null int
null:idx => null idx
null:str => null str
@a min => min ( a )
@a max => max ( a )
@a first => first ( a )
@a last => last ( a )
@a sum => sum ( a )
@a n_unique => n_unique ( a )
@a count => count ( a )
@a not => not ( a )
@a is_null => is_null ( a )
@a is_not_null => is_not_null ( a )
@a @b + sum => sum ( a + b )
@a sum @b sum + => sum ( a ) + sum ( b )
@a min max is_null => is_null ( max ( min ( a ) ) )
len => len ( )
len 2 * => len ( ) * 2
len count => count ( len ( ) )
";

/// The name or text that a word stands for.
fn plain(alloc: Global, word: &str) -> Result<PlSmallStr, TextError> {
    let mut text = String::new(alloc);
    for c in word.chars() {
        text.push(if c == '~' { ' ' } else { c })?;
    }
    Ok(PlSmallStr::from_string(text))
}

/// A name or a text.
fn name(alloc: Global, text: &str) -> Result<PlSmallStr, TextError> {
    Ok(PlSmallStr::from_str(alloc, text)?)
}

/// The operator of a word.
fn operator(word: &str) -> Option<Operator> {
    match word {
        "or" => Some(Operator::Or),
        "and" => Some(Operator::And),
        "==" => Some(Operator::Eq),
        "!=" => Some(Operator::NotEq),
        "<" => Some(Operator::Lt),
        "<=" => Some(Operator::LtEq),
        ">" => Some(Operator::Gt),
        ">=" => Some(Operator::GtEq),
        "+" => Some(Operator::Plus),
        "-" => Some(Operator::Minus),
        "*" => Some(Operator::Multiply),
        "//" => Some(Operator::FloorDivide),
        "%" => Some(Operator::Modulus),
        _ => None,
    }
}

/// The function of a word.
fn function(word: &str) -> Option<TextFn> {
    match word {
        "min" => Some(TextFn::Min),
        "max" => Some(TextFn::Max),
        "first" => Some(TextFn::First),
        "last" => Some(TextFn::Last),
        "sum" => Some(TextFn::Sum),
        "n_unique" => Some(TextFn::NUnique),
        "count" => Some(TextFn::Count),
        "not" => Some(TextFn::Not),
        "is_null" => Some(TextFn::IsNull),
        "is_not_null" => Some(TextFn::IsNotNull),
        _ => None,
    }
}

/// What a word without operands stands for, where it is one.
fn leaf(alloc: Global, word: &str) -> Result<Option<TextExpr>, TextError> {
    if let Some(rest) = word.strip_prefix('@') {
        return Ok(Some(TextExpr::Name(plain(alloc, rest)?)));
    }
    if let Some(rest) = word.strip_prefix('\'') {
        return Ok(Some(TextExpr::Text(plain(alloc, rest)?)));
    }
    if let Ok(number) = word.parse::<i64>() {
        return Ok(Some(TextExpr::Int(number)));
    }
    Ok(match word {
        "true" => Some(TextExpr::Bool(true)),
        "false" => Some(TextExpr::Bool(false)),
        "null:bool" => Some(TextExpr::Null(DataType::Boolean)),
        "null:int" => Some(TextExpr::Null(DataType::Int64)),
        "null:idx" => Some(TextExpr::Null(DataType::IdxSize)),
        "null:str" => Some(TextExpr::Null(DataType::String)),
        "len" => Some(TextExpr::Len),
        _ => None,
    })
}

/// A function of an expression.
fn call(alloc: Global, name: TextFn, of: TextExpr) -> Result<TextExpr, TextError> {
    Ok(TextExpr::Call {
        name,
        of: Box::new(alloc, of)?,
    })
}

/// An operator with its operands.
fn binary(
    alloc: Global,
    op: Operator,
    left: TextExpr,
    right: TextExpr,
) -> Result<TextExpr, TextError> {
    Ok(TextExpr::Binary {
        op,
        left: Box::new(alloc, left)?,
        right: Box::new(alloc, right)?,
    })
}

/// The expression that stands for a word and the operands before it.
fn with_word(alloc: Global, before: &mut Vec<TextExpr>, word: &str) -> Result<TextExpr, TextError> {
    if let Some(found) = leaf(alloc, word)? {
        return Ok(found);
    }
    let Some(last) = before.pop() else {
        return Err(TextError::NoReading);
    };
    if let Some(name) = function(word) {
        return call(alloc, name, last);
    }
    let Some(op) = operator(word) else {
        return Err(TextError::NoReading);
    };
    let Some(left) = before.pop() else {
        return Err(TextError::NoReading);
    };
    binary(alloc, op, left, last)
}

/// The expression in postfix order.
fn postfix(alloc: Global, words: &str) -> Result<TextExpr, TextError> {
    let mut before = Vec::new(alloc);
    for word in words.split(' ') {
        let expr = with_word(alloc, &mut before, word)?;
        before.push(expr)?;
    }
    match before.pop() {
        Some(expr) => Ok(expr),
        None => Err(TextError::NoReading),
    }
}

/// A query of one stage on a table t.
fn on_t(alloc: Global, stage: Stage) -> Result<Query, TextError> {
    let mut stages = Vec::new(alloc);
    stages.push(stage)?;
    Ok(Query {
        source: name(alloc, "t")?,
        stages: Items::new(stages),
    })
}

/// Whether an expression is printed as a text.
fn is_printed(alloc: Global, words: &str, wanted: &str) -> Result<bool, TextError> {
    let query = on_t(alloc, Stage::Filter(postfix(alloc, words)?))?;
    let text = print_query(alloc, &query)?;
    Ok(text.as_str().strip_prefix("from t | filter ") == Some(wanted))
}

/// The first line whose expression isn't printed as it says.
fn first_wrong(alloc: Global, lines: &'static str) -> Result<Option<&'static str>, TextError> {
    for line in lines.lines() {
        let Some((words, wanted)) = line.split_once(" => ") else {
            return Ok(Some(line));
        };
        if !is_printed(alloc, words, wanted)? {
            return Ok(Some(line));
        }
    }
    Ok(None)
}

#[test]
fn expressions_are_printed(rt: HostRuntime) -> Result<(), Fail> {
    assert_eq!(rt; first_wrong(rt.alloc(), EXPRESSIONS)?, None);
    Ok(())
}

/// Items, each by its name and its expression in postfix order.
fn items(alloc: Global, rows: &[(&str, &str)]) -> Result<Items<Item>, TextError> {
    let mut items = Vec::new(alloc);
    for (text, words) in rows {
        let item = Item {
            name: name(alloc, text)?,
            expr: postfix(alloc, words)?,
        };
        items.push(item)?;
    }
    Ok(Items::new(items))
}

/// Keys, each by its expression in postfix order and whether the greatest comes first.
fn keys(alloc: Global, rows: &[(&str, bool)]) -> Result<Items<Key>, TextError> {
    let mut keys = Vec::new(alloc);
    for (words, desc) in rows {
        let key = Key {
            expr: postfix(alloc, words)?,
            desc: *desc,
        };
        keys.push(key)?;
    }
    Ok(Items::new(keys))
}

/// Names.
fn names(alloc: Global, rows: &[&str]) -> Result<Items<PlSmallStr>, TextError> {
    let mut names = Vec::new(alloc);
    for text in rows {
        let copy = name(alloc, text)?;
        names.push(copy)?;
    }
    Ok(Items::new(names))
}

/// The join of a kind with a table u.
fn join(alloc: Global, how: JoinType, on: &[&str]) -> Result<Stage, TextError> {
    Ok(Stage::Join {
        how,
        table: name(alloc, "u")?,
        on: names(alloc, on)?,
    })
}

/// The stages that name columns and expressions.
fn on_columns(alloc: Global, stages: &mut Vec<Stage>) -> Result<(), TextError> {
    stages.push(Stage::Filter(postfix(alloc, "@a")?))?;
    stages.push(Stage::Select(items(alloc, &[("x", "@a"), ("from", "@b 1 +")])?))?;
    stages.push(Stage::With(items(alloc, &[("y", "@x")])?))?;
    let group = Stage::Group {
        keys: items(alloc, &[("k", "@x"), ("k2", "@y")])?,
        aggs: items(alloc, &[("n", "len"), ("s", "@x sum")])?,
    };
    stages.push(group)?;
    stages.push(Stage::Sort(keys(alloc, &[("@n", true), ("@k 1 -", false)])?))?;
    Ok(())
}

/// The other stages, with each join.
fn on_tables(alloc: Global, stages: &mut Vec<Stage>) -> Result<(), TextError> {
    stages.push(Stage::Slice {
        offset: i64::MIN,
        length: u64::MAX,
    })?;
    stages.push(Stage::Slice {
        offset: 0,
        length: 0,
    })?;
    stages.push(Stage::Distinct)?;
    stages.push(join(alloc, JoinType::Inner, &["a", "b c"])?)?;
    stages.push(join(alloc, JoinType::Left, &["on"])?)?;
    stages.push(join(alloc, JoinType::Right, &["a"])?)?;
    stages.push(join(alloc, JoinType::Full, &["a"])?)?;
    stages.push(join(alloc, JoinType::Semi, &["a"])?)?;
    stages.push(join(alloc, JoinType::Anti, &["a"])?)?;
    stages.push(join(alloc, JoinType::Cross, &[])?)?;
    Ok(())
}

/// A query with every kind of stage.
fn every_stage(alloc: Global) -> Result<Query, TextError> {
    let mut stages = Vec::new(alloc);
    on_columns(alloc, &mut stages)?;
    on_tables(alloc, &mut stages)?;
    Ok(Query {
        source: name(alloc, "my table")?,
        stages: Items::new(stages),
    })
}

/// A query of a table, without stages.
fn table(alloc: Global, text: &str) -> Result<Query, TextError> {
    Ok(Query {
        source: name(alloc, text)?,
        stages: Items::new(Vec::new(alloc)),
    })
}

/// A query with a stage of so many items.
fn wide(alloc: Global, count: usize) -> Result<Query, TextError> {
    let mut items = Vec::new(alloc);
    for _ in 0..count {
        let item = Item {
            name: name(alloc, "a")?,
            expr: postfix(alloc, "@a")?,
        };
        items.push(item)?;
    }
    on_t(alloc, Stage::Select(Items::new(items)))
}

/// Whether a query is printed as a text.
fn prints(alloc: Global, query: &Query, wanted: &str) -> Result<bool, TextError> {
    Ok(print_query(alloc, query)?.as_str() == wanted)
}

#[test]
fn stages_are_printed(rt: HostRuntime) -> Result<(), Fail> {
    let wanted = "from \"my table\" \
        | filter a \
        | select x = a , \"from\" = b + 1 \
        | with y = x \
        | group k = x , k2 = y agg n = len ( ) , s = sum ( x ) \
        | sort n desc , k - 1 \
        | slice - 9223372036854775808 18446744073709551615 \
        | slice 0 0 \
        | distinct \
        | join inner u on a , \"b c\" \
        | join left u on \"on\" \
        | join right u on a \
        | join full u on a \
        | join semi u on a \
        | join anti u on a \
        | join cross u";
    assert!(rt; prints(rt.alloc(), &every_stage(rt.alloc())?, wanted)?);
    assert!(rt; prints(rt.alloc(), &table(rt.alloc(), "t")?, "from t")?);
    assert!(rt; prints(rt.alloc(), &table(rt.alloc(), "or")?, "from \"or\"")?);
    // `from t | select `, and then 3,000 items of 5 bytes with 3 bytes between.
    let text = print_query(rt.alloc(), &wide(rt.alloc(), 3000)?)?;
    assert_eq!(rt; text.len(), 16 + 3000 * 5 + 2999 * 3);
    Ok(())
}

// The tokens of a query, one part behind the other.
ghost use Rattle.std.specs.Prelude.{◌≡◌, ◌∷◌, ◌++◌, [], Err, OnErr, OnOk, map};
ghost use Rattle.std.specs.Fmt.{decimal};
ghost use Rattle.text_laws.specs.Widths.{ExprFits, ItemsFit, KeysFit, QueryFits, StageFits};
ghost use Rattle.text_queries.specs.Grammar.{operator_token};
ghost use Rattle.text_queries.specs.Views.{expr_of, item_of, key_of, query_of, stage_of};
ghost use Rattle.text_queries.specs.Writing.{expr_tokens, integer_tokens, item_tokens, key_tokens, name_token, on_tokens, operand_tokens, query_tokens, stage_tokens, with_commas};
ghost use Rattle.text_tokens.specs.declared.error.TextError.TheVariants as refusal;
ghost use Rattle.text_tokens.specs.declared.token.Token.TheVariants as token;

use ps_frame::expr::Operator;
use ps_meaning::options::JoinType;
use pu_base::PlSmallStr;
use std::alloc::Global;
use std::marker::Model;
use text_queries::names::{is_reserved, is_word};
use text_queries::query::{Item, Key, Query, Stage, TextExpr};
use text_queries::spelled::{word_of_function, word_of_how, word_of_kind};
use text_tokens::error::TextError;
use text_tokens::token::{Sign, Token};

/// The tokens that were written so far.
///
/// A call writes behind them. It fails only for want of memory, and leaves a front of its tokens then. A clause `fits`
/// says what every query of the program has: its numbers are of 64 bits.
#[derive(Drop)]
pub struct Writer {
    alloc: Global,
    tokens: Vec<Token>,
}

impl Model for Writer {
    ghost use Rattle.std.specs.Prelude.{List};
    ghost use Rattle.text_tokens.specs.declared.token.Token.{Token};

    ghost Value = { List Token };

    ghost view = { λ a. a.tokens.items };
}

impl Writer {
    /// No tokens yet.
    pub fn new(alloc: Global) -> Writer
        ensures { result ≡ [] }
    {
        Writer {
            alloc,
            tokens: Vec::new(alloc),
        }
    }

    /// The tokens.
    pub fn tokens(&self) -> &[Token]
        ensures { result.now ≡ self.now }
    {
        self.tokens.as_slice()
    }

    /// A query.
    pub fn query(&mut self, query: &Query) -> Result<(), TextError>
        ensures ok { OnOk result (self.new ≡ self.old ++ query_tokens (query_of query.now)) }
        ensures fits { OnOk result (QueryFits (query_of query.now)) }
        ensures memory { OnErr result (result ≡ Err refusal.OutOfMemory) }
    {
        self.word("from")?;
        self.name(&query.source)?;
        for stage in query.stages.as_slice() {
            self.sign(Sign::Bar)?;
            self.stage(stage)?;
        }
        Ok(())
    }

    /// A stage.
    fn stage(&mut self, stage: &Stage) -> Result<(), TextError>
        ensures ok { OnOk result (self.new ≡ self.old ++ stage_tokens (stage_of stage.now)) }
        ensures fits { OnOk result (StageFits (stage_of stage.now)) }
        ensures memory { OnErr result (result ≡ Err refusal.OutOfMemory) }
    {
        match stage {
            Stage::Filter(predicate) => {
                self.word("filter")?;
                self.expr(predicate)
            }
            Stage::Select(items) => {
                self.word("select")?;
                self.items(items.as_slice())
            }
            Stage::With(items) => {
                self.word("with")?;
                self.items(items.as_slice())
            }
            Stage::Group { keys, aggs } => {
                self.word("group")?;
                self.items(keys.as_slice())?;
                self.word("agg")?;
                self.items(aggs.as_slice())
            }
            Stage::Sort(keys) => {
                self.word("sort")?;
                self.keys(keys.as_slice())
            }
            Stage::Slice { offset, length } => {
                self.word("slice")?;
                self.integer(*offset)?;
                self.number(*length)
            }
            Stage::Distinct => self.word("distinct"),
            Stage::Join { how, table, on } => {
                self.word("join")?;
                self.word(word_of_how(*how))?;
                self.name(table)?;
                self.on(*how, on.as_slice())
            }
        }
    }

    /// What stands behind the table of a join.
    fn on(&mut self, how: JoinType, names: &[PlSmallStr]) -> Result<(), TextError>
        ensures ok { OnOk result (self.new ≡ self.old ++ on_tokens how names.now) }
        ensures memory { OnErr result (result ≡ Err refusal.OutOfMemory) }
    {
        match how {
            JoinType::Cross => Ok(()),
            JoinType::Inner
            | JoinType::Left
            | JoinType::Right
            | JoinType::Full
            | JoinType::Semi
            | JoinType::Anti => {
                self.word("on")?;
                self.names(names)
            }
        }
    }

    /// Names with commas between.
    fn names(&mut self, names: &[PlSmallStr]) -> Result<(), TextError>
        ensures ok { OnOk result (self.new ≡ self.old ++ with_commas (λ name. name_token name ∷ []) names.now) }
        ensures memory { OnErr result (result ≡ Err refusal.OutOfMemory) }
    {
        let Some((first, others)) = names.split_first() else {
            return Ok(());
        };
        self.name(first)?;
        for name in others {
            self.sign(Sign::Comma)?;
            self.name(name)?;
        }
        Ok(())
    }

    /// Items with commas between.
    fn items(&mut self, items: &[Item]) -> Result<(), TextError>
        ensures ok { OnOk result (self.new ≡ self.old ++ with_commas item_tokens (map item_of items.now)) }
        ensures fits { OnOk result (ItemsFit (map item_of items.now)) }
        ensures memory { OnErr result (result ≡ Err refusal.OutOfMemory) }
    {
        let Some((first, others)) = items.split_first() else {
            return Ok(());
        };
        self.item(first)?;
        for item in others {
            self.sign(Sign::Comma)?;
            self.item(item)?;
        }
        Ok(())
    }

    /// An item.
    fn item(&mut self, item: &Item) -> Result<(), TextError>
        ensures ok { OnOk result (self.new ≡ self.old ++ item_tokens (item_of item.now)) }
        ensures fits { OnOk result (ExprFits (expr_of item.now.expr)) }
        ensures memory { OnErr result (result ≡ Err refusal.OutOfMemory) }
    {
        self.name(&item.name)?;
        self.sign(Sign::Is)?;
        self.expr(&item.expr)
    }

    /// Keys with commas between.
    fn keys(&mut self, keys: &[Key]) -> Result<(), TextError>
        ensures ok { OnOk result (self.new ≡ self.old ++ with_commas key_tokens (map key_of keys.now)) }
        ensures fits { OnOk result (KeysFit (map key_of keys.now)) }
        ensures memory { OnErr result (result ≡ Err refusal.OutOfMemory) }
    {
        let Some((first, others)) = keys.split_first() else {
            return Ok(());
        };
        self.key(first)?;
        for key in others {
            self.sign(Sign::Comma)?;
            self.key(key)?;
        }
        Ok(())
    }

    /// A key.
    fn key(&mut self, key: &Key) -> Result<(), TextError>
        ensures ok { OnOk result (self.new ≡ self.old ++ key_tokens (key_of key.now)) }
        ensures fits { OnOk result (ExprFits (expr_of key.now.expr)) }
        ensures memory { OnErr result (result ≡ Err refusal.OutOfMemory) }
    {
        self.expr(&key.expr)?;
        if key.desc {
            self.word("desc")?;
        }
        Ok(())
    }

    /// An expression.
    #[cycle(writing)]
    fn expr(&mut self, expr: &TextExpr) -> Result<(), TextError>
        ensures ok { OnOk result (self.new ≡ self.old ++ expr_tokens (expr_of expr.now)) }
        ensures fits { OnOk result (ExprFits (expr_of expr.now)) }
        ensures memory { OnErr result (result ≡ Err refusal.OutOfMemory) }
    {
        match expr {
            TextExpr::Name(name) => self.name(name),
            TextExpr::Int(number) => self.integer(*number),
            TextExpr::Text(content) => self.text(content),
            TextExpr::Bool(true) => self.word("true"),
            TextExpr::Bool(false) => self.word("false"),
            TextExpr::Null(kind) => {
                self.word("null")?;
                self.word(word_of_kind(*kind))
            }
            TextExpr::Call { name, of } => {
                self.word(word_of_function(*name))?;
                self.sign(Sign::Open)?;
                self.expr(of)?;
                self.sign(Sign::Close)
            }
            TextExpr::Len => {
                self.word("len")?;
                self.sign(Sign::Open)?;
                self.sign(Sign::Close)
            }
            TextExpr::Binary { op, left, right } => {
                self.operand(left)?;
                self.operator(*op)?;
                self.operand(right)
            }
        }
    }

    /// An operand, in parentheses where it is an operator's tree.
    #[cycle(writing)]
    fn operand(&mut self, expr: &TextExpr) -> Result<(), TextError>
        ensures ok { OnOk result (self.new ≡ self.old ++ operand_tokens (expr_of expr.now)) }
        ensures fits { OnOk result (ExprFits (expr_of expr.now)) }
        ensures memory { OnErr result (result ≡ Err refusal.OutOfMemory) }
    {
        match expr {
            TextExpr::Binary { .. } => {
                self.sign(Sign::Open)?;
                self.expr(expr)?;
                self.sign(Sign::Close)
            }
            TextExpr::Name(_)
            | TextExpr::Int(_)
            | TextExpr::Text(_)
            | TextExpr::Bool(_)
            | TextExpr::Null(_)
            | TextExpr::Call { .. }
            | TextExpr::Len => self.expr(expr),
        }
    }

    /// An operator.
    fn operator(&mut self, op: Operator) -> Result<(), TextError>
        ensures ok { OnOk result (self.new ≡ self.old ++ operator_token op ∷ []) }
        ensures memory { OnErr result (result ≡ Err refusal.OutOfMemory) }
    {
        match op {
            Operator::Or => self.word("or"),
            Operator::And => self.word("and"),
            Operator::Eq => self.sign(Sign::Equal),
            Operator::NotEq => self.sign(Sign::NotEqual),
            Operator::Lt => self.sign(Sign::Below),
            Operator::LtEq => self.sign(Sign::AtMost),
            Operator::Gt => self.sign(Sign::Above),
            Operator::GtEq => self.sign(Sign::AtLeast),
            Operator::Plus => self.sign(Sign::Plus),
            Operator::Minus => self.sign(Sign::Minus),
            Operator::Multiply => self.sign(Sign::Times),
            Operator::FloorDivide => self.sign(Sign::Over),
            Operator::Modulus => self.sign(Sign::Modulo),
        }
    }

    /// An integer.
    fn integer(&mut self, number: i64) -> Result<(), TextError>
        ensures ok { OnOk result (self.new ≡ self.old ++ integer_tokens number) }
        ensures memory { OnErr result (result ≡ Err refusal.OutOfMemory) }
    {
        if number < 0 {
            self.sign(Sign::Minus)?;
        }
        self.number(number.unsigned_abs())
    }

    /// The digits of a number.
    fn number(&mut self, number: u64) -> Result<(), TextError>
        ensures ok { OnOk result (self.new ≡ self.old ++ token.Digits (decimal number) ∷ []) }
        ensures memory { OnErr result (result ≡ Err refusal.OutOfMemory) }
    {
        let digits = PlSmallStr::format(self.alloc, number)?;
        self.tokens.push(Token::Digits(digits))?;
        Ok(())
    }

    /// A text.
    fn text(&mut self, content: &PlSmallStr) -> Result<(), TextError>
        ensures ok { OnOk result (self.new ≡ self.old ++ token.Text content.now ∷ []) }
        ensures memory { OnErr result (result ≡ Err refusal.OutOfMemory) }
    {
        let content = content.try_clone(self.alloc)?;
        self.tokens.push(Token::Text(content))?;
        Ok(())
    }

    /// A name, in quotes where it is no word, or reserved.
    fn name(&mut self, name: &PlSmallStr) -> Result<(), TextError>
        ensures ok { OnOk result (self.new ≡ self.old ++ name_token name.now ∷ []) }
        ensures memory { OnErr result (result ≡ Err refusal.OutOfMemory) }
    {
        let copy = name.try_clone(self.alloc)?;
        if is_word(name.as_str()) && !is_reserved(name.as_str()) {
            self.tokens.push(Token::Word(copy))?;
        } else {
            self.tokens.push(Token::Name(copy))?;
        }
        Ok(())
    }

    /// A word.
    fn word(&mut self, word: &'static str) -> Result<(), TextError>
        ensures ok { OnOk result (self.new ≡ self.old ++ token.Word word.now ∷ []) }
        ensures memory { OnErr result (result ≡ Err refusal.OutOfMemory) }
    {
        let word = PlSmallStr::from_static(self.alloc, word)?;
        self.tokens.push(Token::Word(word))?;
        Ok(())
    }

    /// A sign.
    fn sign(&mut self, sign: Sign) -> Result<(), TextError>
        ensures ok { OnOk result (self.new ≡ self.old ++ token.Sign sign ∷ []) }
        ensures memory { OnErr result (result ≡ Err refusal.OutOfMemory) }
    {
        self.tokens.push(Token::Sign(sign))?;
        Ok(())
    }
}

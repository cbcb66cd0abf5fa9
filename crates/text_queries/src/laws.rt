// Worked examples, as theorems of a function that does nothing.
ghost use Rattle.std.specs.Prelude.{◌≡◌, ◌∷◌, [], codes};
ghost use Rattle.ps_frame.specs.declared.expr.Operator.TheVariants as op;
ghost use Rattle.text_queries.specs.Examples.{a, above_one, b, c, col_a, col_b, col_c, doubled_and_counted};
ghost use Rattle.text_queries.specs.Grammar.{IsWhole, ReadsAs};
ghost use Rattle.text_queries.specs.Queries.{Binary, depth};
ghost use Rattle.text_queries.specs.Writing.{name_token, printed};
ghost use Rattle.text_tokens.specs.Tokens.{AreTokens};
ghost use Rattle.text_tokens.specs.declared.token.Sign.TheVariants as sign;
ghost use Rattle.text_tokens.specs.declared.token.Token.TheVariants as token;

/// What the definitions give on small texts.
pub fn worked_examples()
    ensures longest_signs { AreTokens (a ∷ token.Sign sign.Equal ∷ token.Sign sign.Minus ∷ token.Digits (codes "1") ∷ []) (codes "a==-1") }
    ensures doubled_quotes { AreTokens (token.Text (codes "it's") ∷ []) (codes "'it''s'") }
    ensures products_first { IsWhole (a ∷ token.Sign sign.Plus ∷ b ∷ token.Sign sign.Times ∷ c ∷ []) (Binary op.Plus col_a (Binary op.Multiply col_b col_c)) }
    ensures from_the_left { IsWhole (a ∷ token.Sign sign.Minus ∷ b ∷ token.Sign sign.Minus ∷ c ∷ []) (Binary op.Minus (Binary op.Minus col_a col_b) col_c) }
    ensures a_query { ReadsAs (codes "from t | filter a > 1") above_one }
    ensures deep { depth doubled_and_counted ≡ 3 }
    ensures print { printed doubled_and_counted ≡ codes "from t | select x = ( a + 1 ) * 2 , y = len ( ) | sort x desc" }
    ensures reserved_word { name_token (codes "from") ≡ token.Name (codes "from") }
{}

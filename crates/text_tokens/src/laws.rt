// Laws of tokens, as theorems of functions that do nothing.
ghost use Rattle.std.specs.Prelude.{◌≡◌, ℕ, List};
ghost use Rattle.text_tokens.specs.Tokens.{AreTokens};
ghost use Rattle.text_tokens.specs.declared.token.Token.{Token};

/// A text is cut into tokens in one way at most.
pub fn one_cut()
    ensures { (text : List ℕ) (tokens others : List Token) → AreTokens tokens text → AreTokens others text → tokens ≡ others }
{}

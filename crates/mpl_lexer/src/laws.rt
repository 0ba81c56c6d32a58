ghost use Rattle.std.specs.Prelude.{◌≡◌, ℕ, List, Ok};
ghost use Rattle.mpl_ast.specs.declared.token.Token.{Token};
ghost use Rattle.mpl_mean.specs.Text.Lexemes.{tokens_of};
ghost use Rattle.mpl_lexer.specs.Spans.{AreSpansOf};

/// What holds of the tokens of each source. It does nothing.
pub fn tokens_stand_in_their_source()
    // A source has one list of tokens at most.
    ensures one { (source : List ℕ) (ts us : List Token) →
        tokens_of source ≡ Ok ts → tokens_of source ≡ Ok us → ts ≡ us }
    // The spans rise within the source, and the text of each token stands at its span.
    ensures spans { (source : List ℕ) (ts : List Token) →
        tokens_of source ≡ Ok ts → AreSpansOf source ts }
{}

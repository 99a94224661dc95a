//! What holds of the definitions.

ghost use Rattle.std.specs.Prelude.{◌≡◌, ℕ, List};
ghost use Rattle.std.specs.Str.{IsAscii};
ghost use Rattle.order_core.specs.Pointwise.{Each};
ghost use Rattle.design_lexer.specs.declared.token.Token.{Token};
ghost use Rattle.design_lexer.specs.declared.token.TokenKind.{TokenKind};
ghost use Rattle.design_lexer.specs.Pieces.{HasForm};
ghost use Rattle.design_lexer.specs.Cut.{AreTokens, IsFirstBad, StandsIn};

/// A text has one list of tokens or one first bad place, and never both.
pub fn texts_are_cut_in_one_way()
    ensures tokens { (text : List ℕ) (xs ys : List Token) → AreTokens text xs → AreTokens text ys → xs ≡ ys }
    ensures place { (text : List ℕ) (a b : ℕ) → IsFirstBad text a → IsFirstBad text b → a ≡ b }
    ensures never_both { (text : List ℕ) (xs : List Token) (at : ℕ) → AreTokens text xs → IsFirstBad text at → ⊥ }
{}

/// Each token of a text has the bytes of its kind at its place, and isn't too long. These bytes are ASCII.
pub fn tokens_have_their_bytes()
    ensures ascii { (kind : TokenKind) (bs : List ℕ) → HasForm kind bs → IsAscii bs }
    ensures tokens { (text : List ℕ) (ts : List Token) → AreTokens text ts → Each (StandsIn text) ts }
{}

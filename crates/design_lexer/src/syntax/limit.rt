ghost use Rattle.std.specs.Prelude.{◌≡◌, ◌≤◌, length};
ghost use Rattle.order_core.specs.Pointwise.{Each};
ghost use Rattle.design_lexer.specs.Cut.{StandsIn};
ghost use Rattle.design_lexer.specs.Syntax.Classes as spec;
ghost use Rattle.design_lexer.specs.Syntax.Reading as reading;
ghost use Rattle.design_lexer.specs.Syntax.Words as words;

use crate::syntax::class::Class;
use crate::syntax::spelling::is;
use crate::token::Token;

/// Whether the token is a sign `+` or `*`.
fn is_sign(text: &[u8], token: &Token) -> bool
    requires { StandsIn text.now token.now }
    ensures { result ≡ words.is_sign (spec.lexeme_of text.now token.now) }
{
    is(text, token, Class::Plus) || is(text, token, Class::Star)
}

/// How many of the tokens are left from the first sign past the limit on, or 0 where there is none before the next `;`.
pub fn over(text: &[u8], tokens: &[Token], limit: usize) -> usize
    requires { Each (StandsIn text.now) tokens.now }
    ensures over { result ≡ reading.over limit (spec.lexemes_of text.now tokens.now) }
    ensures within { result ≤ length tokens.now }
{
    let mut left = limit;
    for (at, token) in tokens.iter().enumerate() {
        if is_sign(text, token) {
            if left == 0 {
                return tokens.len() - at;
            }
            left -= 1;
        } else if is(text, token, Class::Semicolon) {
            return 0;
        }
    }
    0
}

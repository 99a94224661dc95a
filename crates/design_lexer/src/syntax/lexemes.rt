ghost use Rattle.std.specs.Prelude.{◌≡◌, ◌-◌, ◌≤◌, ◌<◌, ◌^◌, length, take, drop};
ghost use Rattle.design_lexer.specs.Cut.{AreTokens};
ghost use Rattle.design_lexer.specs.Syntax.Classes as spec;
ghost use Rattle.design_lexer.specs.Syntax.Gives.{Gives};
ghost use Rattle.design_lexer.specs.Syntax.Reading as reading;
ghost use Rattle.design_lexer.specs.Syntax.Spelled as spelled;
ghost use Rattle.design_lexer.specs.Syntax.Words.{place_or};

use crate::syntax::class::Class;
use crate::syntax::fault::ReadFault;
use crate::syntax::limit::over;
use crate::syntax::spelling::{is, number_of, text_of, whole_of};
use crate::token::Token;
use crate::tree::{NameAt, Number};
use order_core::{List, Text};
use std::alloc::Global;
use std::marker::Model;

/// The tokens of a text that are still to be read.
///
/// A reader goes past what it has read. Where it stops at a token, it leaves that one and those after it.
#[derive(Drop)]
pub struct Lexemes<'a> {
    text: &'a [u8],
    tokens: &'a [Token],
}

impl<'a> Model for Lexemes<'a> {
    ghost use Rattle.std.specs.Prelude.{List};
    ghost use Rattle.order_core.specs.Pointwise.{Each};
    ghost use Rattle.design_lexer.specs.Cut.{StandsIn};
    ghost use Rattle.design_lexer.specs.Syntax.Classes.{Lexeme, lexemes_of};

    ghost Value = { List Lexeme };

    ghost view = { λ l. lexemes_of l.text.now l.tokens.now };

    ghost invariant = { λ l. Each (StandsIn l.text.now) l.tokens.now };
}

impl<'a> Lexemes<'a> {
    /// All tokens of the text.
    pub fn of(text: &'a [u8], tokens: &'a List<Token>) -> Lexemes<'a>
        requires { AreTokens text.now tokens.now }
        ensures { result ≡ spec.lexemes_of text.now tokens.now }
    {
        Lexemes {
            text,
            tokens: tokens.items(),
        }
    }

    /// How many tokens are left.
    pub fn left(&self) -> usize
        ensures { result ≡ length self.now }
    {
        self.tokens.len()
    }

    /// The place of the next token, or `end` where none is left.
    pub fn place_or(&self, end: u64) -> u64
        ensures { result ≡ place_or end self.now }
    {
        match self.tokens {
            [] => end,
            [token, ..] => token.at,
        }
    }

    /// The place of the token with which so many are left, or `end` where none is.
    pub fn place_with_left(&self, left: usize, end: u64) -> u64
        requires { left ≤ length self.now }
        ensures { result ≡ place_or end (drop (length self.now - left) self.now) }
    {
        let (_, rest) = self.tokens.split_at(self.tokens.len() - left);
        match rest {
            [] => end,
            [token, ..] => token.at,
        }
    }

    /// Whether the next token is of the class.
    pub fn starts(&self, class: Class) -> bool
        ensures { result ≡ spec.starts (spec.is class) self.now }
    {
        match self.tokens {
            [] => false,
            [token, ..] => is(self.text, token, class),
        }
    }

    /// Whether the next token is of one of the classes.
    pub fn starts_any(&self, classes: &[Class]) -> bool
        ensures { result ≡ spec.starts (spec.one_of classes.now) self.now }
    {
        for class in classes {
            if self.starts(*class) {
                return true;
            }
        }
        false
    }

    /// Goes past the next token.
    pub fn skip(&mut self)
        ensures { self.new ≡ reading.rest_of self.old }
    {
        if let [_, rest @ ..] = self.tokens {
            self.tokens = rest;
        }
    }

    /// Goes past the next token, which has to be of the class.
    pub fn expect(&mut self, class: Class) -> Result<(), ReadFault>
        ensures { Gives (λ _. self.new) result (reading.skip_at class self.old) }
    {
        if !self.starts(class) {
            return Err(ReadFault::Left(self.tokens.len()));
        }
        self.skip();
        Ok(())
    }

    /// Goes past the next token, which has to be of the class, and gives its place.
    pub fn mark(&mut self, class: Class) -> Result<u64, ReadFault>
        ensures { Gives (λ at. (at, self.new)) result (reading.mark_at class self.old) }
    {
        match self.tokens {
            [token, rest @ ..] => {
                if !is(self.text, token, class) {
                    return Err(ReadFault::Left(self.tokens.len()));
                }
                self.tokens = rest;
                Ok(token.at)
            }
            [] => Err(ReadFault::Left(0)),
        }
    }

    /// The name that the next token spells.
    pub fn name(&mut self, alloc: Global) -> Result<NameAt, ReadFault>
        ensures { Gives (λ name. (name, self.new)) result (spelled.name_at self.old) }
    {
        if !self.starts(Class::Name) {
            return Err(ReadFault::Left(self.tokens.len()));
        }
        self.next_name(alloc)
    }

    /// The name of a unit that the next token spells: `min` is one, though it is a reserved word.
    pub fn unit_name(&mut self, alloc: Global) -> Result<NameAt, ReadFault>
        ensures { Gives (λ name. (name, self.new)) result (spelled.unit_name_at self.old) }
    {
        if !self.starts_any(&[Class::Name, Class::Min]) {
            return Err(ReadFault::Left(self.tokens.len()));
        }
        self.next_name(alloc)
    }

    /// The number that the next token spells, and its place.
    pub fn number(&mut self) -> Result<(Number, u64), ReadFault>
        ensures { Gives (λ number. (number, self.new)) result (spelled.number_at self.old) }
    {
        if !self.starts_any(&[Class::Whole, Class::Decimal]) {
            return Err(ReadFault::Left(self.tokens.len()));
        }
        match self.tokens {
            [token, rest @ ..] => {
                let number = number_of(self.text, token);
                self.tokens = rest;
                Ok((number, token.at))
            }
            [] => Err(ReadFault::Left(0)),
        }
    }

    /// What the whole digits stand for that the next token has, and how they are written.
    pub fn whole(&mut self, alloc: Global) -> Result<(u128, Text), ReadFault>
        ensures { Gives (λ digits. (digits, self.new)) result (spelled.whole_at self.old) }
    {
        match self.tokens {
            [token, rest @ ..] => {
                if !is(self.text, token, Class::Whole) {
                    return Err(ReadFault::Left(self.tokens.len()));
                }
                let written = text_of(alloc, self.text, token)?;
                self.tokens = rest;
                Ok((whole_of(self.text, token), written))
            }
            [] => Err(ReadFault::Left(0)),
        }
    }

    /// How many tokens are left from the first sign `+` or `*` past the limit on, or 0 where there is none before the next `;`.
    pub fn over(&self, limit: usize) -> usize
        ensures over { result ≡ reading.over limit self.now }
        ensures within { result ≤ length self.now }
        ensures fits { length self.now < 2 ^ 64 }
    {
        over(self.text, self.tokens, limit)
    }

    /// The tokens without the last ones, of which there are so many.
    pub fn without_last(&self, last: usize) -> Lexemes<'a>
        requires { last ≤ length self.now }
        ensures { result ≡ take (length self.now - last) self.now }
    {
        let (tokens, _) = self.tokens.split_at(self.tokens.len() - last);
        Lexemes {
            text: self.text,
            tokens,
        }
    }

    /// The name that the next token spells, whatever it is.
    fn next_name(&mut self, alloc: Global) -> Result<NameAt, ReadFault>
        ensures { Gives (λ name. (name, self.new)) result (reading.made_at spelled.name_of reading.next_at self.old) }
    {
        match self.tokens {
            [token, rest @ ..] => {
                let name = text_of(alloc, self.text, token)?;
                self.tokens = rest;
                Ok(NameAt { name, at: token.at })
            }
            [] => Err(ReadFault::Left(0)),
        }
    }
}

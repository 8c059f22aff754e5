//! A line's tokens, one after the other.

ghost use Rattle.nc_tokens.specs.Gives.{Gives};
ghost use Rattle.nc_tokens.specs.Wanted.{close_at, close_brace_at, end_at, exponent_at, literal_at, name_at, open_at, sign_at};
ghost use Rattle.nc_tokens.specs.Shown.{IsMisplaced, IsTakenToken, IsTakenLiteral, before};
ghost use Rattle.nc_tokens.specs.Tokens as spec;
ghost use Rattle.nc_tokens.specs.Tokens.{tokens};
ghost use Rattle.std.specs.Prelude.{◌≡◌};

use crate::fault::{Kind, LineError};
use crate::token::{Token, next_token};
use std::marker::Model;

/// What is left of a line.
#[derive(Drop)]
pub struct Tokens<'a> {
    rest: &'a [u8],
}

impl<'a> Model for Tokens<'a> {
    ghost use Rattle.std.specs.Prelude.{List};
    ghost use Rattle.nc_tokens.specs.Tokens.{Token, tokens};

    ghost Value = { List Token };

    ghost view = { λ t. tokens t.rest.now };
}

/// The fault of a token that stands where the grammar wants something else.
pub fn misplaced(token: Token<'_>) -> LineError
    ensures { IsMisplaced token.entry result }
{
    match token {
        Token::Long => LineError::Fault(Kind::LongLiteral),
        _ => LineError::Fault(Kind::Syntax),
    }
}

impl<'a> Tokens<'a> {
    /// The tokens of a line.
    pub fn of(line: &'a [u8]) -> Tokens<'a>
        ensures { result ≡ tokens line.now }
    {
        Tokens { rest: line }
    }

    /// Takes the next token.
    pub fn take(&mut self) -> Token<'a>
        ensures { self.old ≡ before result self.new }
    {
        let (token, rest) = next_token(self.rest);
        self.rest = rest;
        token
    }

    /// Takes a `*`, if it comes next.
    pub fn takes_times(&mut self) -> bool
        ensures { IsTakenToken spec.Times self.old self.new result }
    {
        let (token, rest) = next_token(self.rest);
        match token {
            Token::Times => {
                self.rest = rest;
                true
            }
            _ => false,
        }
    }

    /// Takes a literal, if it comes next.
    pub fn takes_literal(&mut self) -> Option<u64>
        ensures { IsTakenLiteral self.old self.new result }
    {
        let (token, rest) = next_token(self.rest);
        match token {
            Token::Literal(value) => {
                self.rest = rest;
                Some(value)
            }
            _ => None,
        }
    }

    /// Takes the sign that may stand before the first term, and tells whether it is a minus.
    #[tactic(auto, unfolding(crate::specs::Wanted::sign_at))]
    pub fn takes_sign(&mut self) -> bool
        ensures { sign_at self.old ≡ (result, self.new) }
    {
        let (token, rest) = next_token(self.rest);
        match token {
            Token::Plus => {
                self.rest = rest;
                false
            }
            Token::Minus => {
                self.rest = rest;
                true
            }
            _ => false,
        }
    }

    /// Takes a literal, which is wanted here.
    #[tactic(auto, unfolding(crate::specs::Wanted::literal_at))]
    pub fn literal(&mut self) -> Result<u64, LineError>
        ensures { Gives (λ n. (n, self.new)) result (literal_at self.old) }
    {
        match self.take() {
            Token::Literal(value) => Ok(value),
            token => Err(misplaced(token)),
        }
    }

    /// Takes a name, which is wanted here.
    #[tactic(auto, unfolding(crate::specs::Wanted::name_at))]
    pub fn name(&mut self) -> Result<&'a [u8], LineError>
        ensures { Gives (λ x. (x.now, self.new)) result (name_at self.old) }
    {
        match self.take() {
            Token::Name(name) => Ok(name),
            token => Err(misplaced(token)),
        }
    }

    /// Takes a `[`, which is wanted here.
    #[tactic(auto, unfolding(crate::specs::Wanted::open_at))]
    pub fn open(&mut self) -> Result<(), LineError>
        ensures { Gives (λ _. self.new) result (open_at self.old) }
    {
        match self.take() {
            Token::Open => Ok(()),
            token => Err(misplaced(token)),
        }
    }

    /// Takes a `]`, which is wanted here.
    #[tactic(auto, unfolding(crate::specs::Wanted::close_at))]
    pub fn close(&mut self) -> Result<(), LineError>
        ensures { Gives (λ _. self.new) result (close_at self.old) }
    {
        match self.take() {
            Token::Close => Ok(()),
            token => Err(misplaced(token)),
        }
    }

    /// Takes a `{`, if it comes next.
    pub fn takes_brace(&mut self) -> bool
        ensures { IsTakenToken spec.OpenBrace self.old self.new result }
    {
        let (token, rest) = next_token(self.rest);
        match token {
            Token::OpenBrace => {
                self.rest = rest;
                true
            }
            _ => false,
        }
    }

    /// Takes a `}`, which is wanted here.
    #[tactic(auto, unfolding(crate::specs::Wanted::close_brace_at))]
    pub fn close_brace(&mut self) -> Result<(), LineError>
        ensures { Gives (λ _. self.new) result (close_brace_at self.old) }
    {
        match self.take() {
            Token::CloseBrace => Ok(()),
            token => Err(misplaced(token)),
        }
    }

    /// Sees that the line ends here.
    #[tactic(auto, unfolding(crate::specs::Wanted::end_at))]
    pub fn end(&mut self) -> Result<(), LineError>
        ensures { Gives (λ _. tt) result (end_at self.old) }
    {
        match self.take() {
            Token::End => Ok(()),
            token => Err(misplaced(token)),
        }
    }

    /// Takes an exponent, which is 1 where there is none.
    #[tactic(auto, unfolding(crate::specs::Wanted::exponent_at))]
    pub fn exponent(&mut self) -> Result<u64, LineError>
        ensures { Gives (λ n. (n, self.new)) result (exponent_at self.old) }
    {
        let (token, rest) = next_token(self.rest);
        match token {
            Token::Power => {
                self.rest = rest;
                self.literal()
            }
            _ => Ok(1),
        }
    }
}

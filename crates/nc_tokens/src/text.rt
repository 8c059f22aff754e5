//! A text, line after line.

ghost use Rattle.nc_tokens.specs.Gives.{GivesText};
ghost use Rattle.nc_tokens.specs.Lines.{a_line, lines, the_end, the_line};
ghost use Rattle.nc_tokens.specs.Taken.{IsBegun, IsTakenRow, seen_row};
ghost use Rattle.nc_tokens.specs.Tokens.{tokens};
ghost use Rattle.nc_tokens.specs.Unread.{left};
ghost use Rattle.std.specs.Prelude.{◌≡◌};

use crate::fault::{Kind, ReadFault, TextFault};
use crate::line::{Next, are_allowed, next_line};
use crate::token::Token;
use crate::tokens::Tokens;
use std::marker::Model;

/// What is left of a text.
#[derive(Drop)]
pub struct Text<'a> {
    rest: &'a [u8],
    number: u64,
}

impl<'a> Model for Text<'a> {
    ghost use Rattle.std.specs.Prelude.{◌+◌, ◌<◌, ◌^◌, length};
    ghost use Rattle.nc_tokens.specs.Lines.{lines};
    ghost use Rattle.nc_tokens.specs.Unread.{Unread};

    ghost Value = { Unread };

    ghost view = { λ t. record { number = t.number; lines = lines t.rest.now } };

    ghost invariant = { λ t. t.number + length t.rest.now < 2 ^ 64 };
}

/// A line of which the keyword is read.
#[derive(Drop)]
pub struct Row<'a> {
    pub number: u64,
    pub tokens: Tokens<'a>,
}

/// A fault in a line.
fn fault_at(line: u64, kind: Kind) -> ReadFault
    ensures { result ≡ ReadFault.Text (record { line = line; kind = kind }) }
{
    ReadFault::Text(TextFault { line, kind })
}

/// The tokens behind a keyword, if it stands first.
fn behind<'a>(keyword: &[u8], content: &'a [u8]) -> Option<Tokens<'a>>
    ensures { IsBegun keyword.now (tokens content.now) result }
{
    let mut tokens = Tokens::of(content);
    match tokens.take() {
        Token::Name(name) => {
            if name == keyword {
                return Some(tokens);
            }
            None
        }
        _ => None,
    }
}

impl<'a> Text<'a> {
    /// The text, of which nothing is read.
    pub fn of(bytes: &'a [u8]) -> Text<'a>
        ensures { result ≡ record { number = 1; lines = lines bytes.now } }
    {
        Text {
            rest: bytes,
            number: 1,
        }
    }

    /// Takes the next line, if it has the keyword.
    #[tactic(auto, unfolding(crate::specs::Lines::a_line))]
    pub fn takes(&mut self, keyword: &[u8]) -> Option<Row<'a>>
        ensures { IsTakenRow (a_line keyword.now (left self.old)) (left self.old) (left self.new)
            result }
    {
        match next_line(self.rest, self.number) {
            Next::End(_) => None,
            Next::Line(number, content, rest) => {
                if !are_allowed(content) {
                    return None;
                }
                let tokens = behind(keyword, content)?;
                self.rest = rest;
                self.number = number + 1;
                Some(Row { number, tokens })
            }
        }
    }

    /// Takes the next line, which must have the keyword.
    #[tactic(auto, unfolding(crate::specs::Lines::the_line))]
    pub fn wants(&mut self, keyword: &[u8]) -> Result<Row<'a>, ReadFault>
        ensures { GivesText (λ r. seen_row r (left self.new)) result
            (the_line keyword.now (left self.old)) }
    {
        match next_line(self.rest, self.number) {
            Next::End(number) => Err(fault_at(number, Kind::Missing)),
            Next::Line(number, content, rest) => {
                if !are_allowed(content) {
                    return Err(fault_at(number, Kind::BadByte));
                }
                match behind(keyword, content) {
                    None => Err(fault_at(number, Kind::WrongLine)),
                    Some(tokens) => {
                        self.rest = rest;
                        self.number = number + 1;
                        Ok(Row { number, tokens })
                    }
                }
            }
        }
    }

    /// Sees that the text ends here.
    #[tactic(auto, unfolding(crate::specs::Lines::the_end))]
    pub fn ends(&self) -> Result<(), ReadFault>
        ensures { GivesText (λ _. tt) result (the_end (left self.now)) }
    {
        match next_line(self.rest, self.number) {
            Next::End(_) => Ok(()),
            Next::Line(number, content, _) => {
                if !are_allowed(content) {
                    return Err(fault_at(number, Kind::BadByte));
                }
                Err(fault_at(number, Kind::WrongLine))
            }
        }
    }
}

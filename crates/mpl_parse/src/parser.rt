//! The program that tokens are, or what is wrong with them first.

ghost use Rattle.std.specs.Prelude.{◌≡◌, ◌≤◌, true, length, IfErr, IfOk};
ghost use Rattle.mpl_mean.specs.Limits.{most_tokens};
ghost use Rattle.mpl_mean.specs.Text.ProgramText.{spells};
ghost use Rattle.mpl_mean.specs.Text.Weight.{is_light};
ghost use Rattle.mpl_parse.specs.Fault.{IsFault};

use crate::declaration::program;
use mpl_ast::program::Program;
use mpl_ast::token::Tokens;
use mpl_grammar::{Fault, first_fault};
use mpl_reader::Stop;
use mpl_trees::programs_are_taken;
use mpl_value::NoMemory;
use std::alloc::Global;

/// What is wrong with tokens, and the byte at which it is.
#[derive(Clone, Copy, Debug, PartialEq, Eq)]
pub enum ParseFault {
    /// No program goes on so.
    Syntax(u32),
    /// Too many constructs are open.
    TooDeep(u32),
    NoMemory,
}

impl From<NoMemory> for ParseFault {
    ghost use Rattle.mpl_parse.specs.declared.parser.ParseFault.TheVariants.{NoMemory};

    ghost from_gives = { λ _ e. e ≡ NoMemory };

    fn from(_error: NoMemory) -> ParseFault {
        ParseFault::NoMemory
    }
}

/// The program with these tokens. Its nodes are numbered from 0, outer before inner and left before right.
pub fn parse(alloc: Global, tokens: &Tokens) -> Result<Program, ParseFault>
    requires { length tokens.now.list ≤ most_tokens }
    ensures text { IfOk result (λ p. spells p tokens.now.list ≡ true) }
    ensures light { IfOk result (λ p. is_light p ≡ true) }
    ensures fault { IfErr result (λ e. IsFault tokens.now e) }
{
    match first_fault(alloc, tokens)? {
        Some(Fault::Syntax(at)) => return Err(ParseFault::Syntax(at)),
        Some(Fault::TooDeep(at)) => return Err(ParseFault::TooDeep(at)),
        None => {}
    }
    programs_are_taken();
    match program(alloc, tokens.list.as_slice()) {
        Ok(program) => Ok(program),
        Err(Stop::NoMemory) => Err(ParseFault::NoMemory),
        Err(Stop::Stuck) => unreachable!(),
    }
}

//! What is wrong first with the tokens of a source.
ghost use Rattle.std.specs.Prelude.{◌≡◌, ℕ, [], None, Some, IfOk};
ghost use Rattle.mpl_mean.specs.Text.ParseFaults.{HasLightProgram, IsSyntaxFault, IsTooDeep};
ghost use Rattle.mpl_grammar.specs.Internal.Machine as machine;
ghost use Rattle.mpl_grammar.specs.declared.faults.Fault.TheVariants.{Syntax, TooDeep};

use crate::pending::Pending;
use mpl_ast::token::{Token, Tokens};
use mpl_value::NoMemory;
use std::alloc::Global;

/// How much a token may weigh.
const MOST_WEIGHT: u32 = 64;

/// What is wrong with tokens, and the byte at which it is.
#[derive(Clone, Copy, Debug, PartialEq, Eq)]
pub enum Fault {
    /// No program goes on so.
    Syntax(u32),
    /// Too many constructs are open.
    TooDeep(u32),
}

/// The fault that the tokens have. Where they have none, they are a program's.
pub fn first_fault(alloc: Global, tokens: &Tokens) -> Result<Option<Fault>, NoMemory>
    ensures none { IfOk result (λ found. found ≡ None → HasLightProgram tokens.now.list) }
    ensures syntax { IfOk result (λ found. (at : ℕ) → found ≡ Some (Syntax at) → IsSyntaxFault tokens.now.list tokens.now.end at) }
    ensures too_deep { IfOk result (λ found. (at : ℕ) → found ≡ Some (TooDeep at) → IsTooDeep tokens.now.list at) }
{
    fault_of(alloc, tokens.list.as_slice(), tokens.end)
}

/// Where the machine stops.
fn fault_of(alloc: Global, tokens: &[Token], end: u32) -> Result<Option<Fault>, NoMemory>
    ensures { IfOk result (λ found. found ≡ machine.fault end tokens.now []) }
{
    let mut pending = Pending::new(alloc);
    for token in tokens {
        if !pending.step(&token.kind)? {
            return Ok(Some(Fault::Syntax(token.span.from)));
        }
        if pending.weight() > MOST_WEIGHT {
            return Ok(Some(Fault::TooDeep(token.span.from)));
        }
    }
    if pending.may_end() {
        Ok(None)
    } else {
        Ok(Some(Fault::Syntax(end)))
    }
}

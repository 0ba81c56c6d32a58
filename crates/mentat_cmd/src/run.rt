ghost use Rattle.std.specs.Prelude.{◌≡◌, ◌+◌, ◌≤◌, length, true, List, ℕ, Ok, Err, IfOk, IfErr};
ghost use Rattle.mpl_mean.specs.Accepted.{IsAccepted};
ghost use Rattle.mpl_mean.specs.Limits.{greatest_budget, most_source_bytes, most_tokens};
ghost use Rattle.mpl_mean.specs.Meaning.DirectRun.{direct_run, main_start};
ghost use Rattle.mpl_mean.specs.Text.Lexemes.{tokens_of};
ghost use Rattle.mpl_mean.specs.Text.ProgramText.{spells};
ghost use Rattle.mpl_mean.specs.Text.Weight.{is_light};
ghost use Rattle.mpl_value.specs.declared.body.BodyEnd.TheVariants.{Spent, Waits};
ghost use Rattle.mentat_cmd.specs.Input.{input_of};
ghost use Rattle.mentat_cmd.specs.Internal.Ran.{Giving, IsRejected, Ran};
ghost use Rattle.mentat_cmd.specs.Program.{IsBuilt};
ghost use Rattle.mentat_cmd.specs.Program as spec;

use crate::source_words::{asks_for_input, first_persistent};
use crate::status::Refusal;
use mentat_input::{InputFault, read_numbers};
use mentat_io::Source;
use mpl_ast::program::Program;
use mpl_ast::token::Tokens;
use mpl_lexer::{LexFault, lex};
use mpl_mean::{Typed, only_replies_are_awaited, tokens_are_few};
use mpl_parse::{ParseFault, parse};
use mpl_types::{TypeFault, check};
use mpl_value::{BodyStart, NoMemory, Replies, Words, Yield};
use mpl_walk::walk;
use std::alloc::Global;

/// Why a source didn't run.
#[derive(Clone, Copy, Debug, PartialEq, Eq)]
pub enum Rejection {
    /// The source is not accepted.
    Refused(Refusal),
    /// The program has a persistent class. Its first word `persistent` begins at this byte.
    Unbuilt(u32),
    /// The input that the source asks for gives no numbers.
    Input(InputFault),
    NoMemory,
}

impl From<NoMemory> for Rejection {
    ghost use Rattle.mentat_cmd.specs.declared.run.Rejection.TheVariants.{NoMemory};

    ghost from_gives = { λ _ e. e ≡ NoMemory };

    fn from(_error: NoMemory) -> Rejection {
        Rejection::NoMemory
    }
}

impl From<InputFault> for Rejection {
    ghost use Rattle.mentat_cmd.specs.declared.run.Rejection.TheVariants.{Input};

    ghost from_gives = { λ fault e. e ≡ Input fault };

    fn from(fault: InputFault) -> Rejection {
        Rejection::Input(fault)
    }
}

/// An accepted program, and whether its source asks for the input.
#[derive(Drop)]
struct Accepted {
    typed: Typed,
    asks: bool,
}

/// What the program of a source does within the budget.
pub fn run<S: Source>(
    alloc: Global,
    source: &[u8],
    budget: u64,
    input: &mut S,
) -> Result<Yield, Rejection>
    requires source { length source.now ≤ most_source_bytes }
    requires budget { budget ≤ greatest_budget }
    ensures ran { Ran budget source.now (input_of (S.left input.old) (S.left input.new) (S.faults input.old) (S.faults input.new) (input.new ≡ input.old)) result }
    ensures spent { IfOk result (λ y. y.end ≡ Spent → y.turns ≡ budget + 1) }
    ensures never { IfOk result (λ y. y.end ≡ Waits → ⊥) }
{
    let accepted = accept(alloc, source)?;
    let numbers = numbers_for(alloc, accepted.asks, input)?;
    only_replies_are_awaited();
    let done = walk_main(alloc, &accepted.typed, numbers, budget)?;
    Ok(done)
}

// The program of a source that runs, or why there is none.
fn accept(alloc: Global, source: &[u8]) -> Result<Accepted, Rejection>
    requires { length source.now ≤ most_source_bytes }
    ensures built { IfOk result (λ a. IsBuilt source.now a.typed) }
    ensures asks { IfOk result (λ a. a.asks ≡ spec.asks_for_input source.now) }
    ensures fault { IfErr result (λ e. IsRejected source.now e) }
{
    let tokens = tokens_of(alloc, source)?;
    tokens_are_few();
    let typed = typed_of(alloc, &tokens)?;
    match first_persistent(typed.program().declarations.as_slice()) {
        Some(at) => Err(Rejection::Unbuilt(at)),
        None => Ok(Accepted {
            typed,
            asks: asks_for_input(tokens.list.as_slice()),
        }),
    }
}

// The tokens of a source, or its first fault.
fn tokens_of(alloc: Global, source: &[u8]) -> Result<Tokens, Rejection>
    requires { length source.now ≤ most_source_bytes }
    ensures tokens { IfOk result (λ t. (tokens_of source.now ≡ Ok t.list) × (t.end ≡ length source.now)) }
    ensures fault { IfErr result (λ e. IsRejected source.now e) }
{
    match lex(alloc, source) {
        Ok(tokens) => Ok(tokens),
        Err(LexFault::BadByte(at)) => Err(Rejection::Refused(Refusal::BadByte(at))),
        Err(LexFault::WideNumber(at)) => Err(Rejection::Refused(Refusal::WideNumber(at))),
        Err(LexFault::OpenComment(at)) => Err(Rejection::Refused(Refusal::OpenComment(at))),
        Err(LexFault::NoMemory) => Err(Rejection::NoMemory),
    }
}

// The accepted program that tokens are, or their first fault, or the first of their program.
fn typed_of(alloc: Global, tokens: &Tokens) -> Result<Typed, Rejection>
    requires { length tokens.now.list ≤ most_tokens }
    ensures accepted { IfOk result (λ p. (source : List ℕ) → length source ≤ most_source_bytes → tokens_of source ≡ Ok tokens.now.list → IsAccepted source p) }
    ensures fault { IfErr result (λ e. (source : List ℕ) → tokens_of source ≡ Ok tokens.now.list → tokens.now.end ≡ length source → IsRejected source e) }
{
    let program = program_of(alloc, tokens)?;
    match check(alloc, program) {
        Ok(typed) => Ok(typed),
        Err(TypeFault::Rule { rule, at }) => Err(Rejection::Refused(Refusal::Rule(rule, at))),
        Err(TypeFault::NoMemory) => Err(Rejection::NoMemory),
    }
}

// The program that tokens are, or their first fault.
fn program_of(alloc: Global, tokens: &Tokens) -> Result<Program, Rejection>
    requires { length tokens.now.list ≤ most_tokens }
    ensures text { IfOk result (λ p. spells p tokens.now.list ≡ true) }
    ensures light { IfOk result (λ p. is_light p ≡ true) }
    ensures fault { IfErr result (λ e. (source : List ℕ) → tokens_of source ≡ Ok tokens.now.list → tokens.now.end ≡ length source → IsRejected source e) }
{
    match parse(alloc, tokens) {
        Ok(program) => Ok(program),
        Err(ParseFault::Syntax(at)) => Err(Rejection::Refused(Refusal::Syntax(at))),
        Err(ParseFault::TooDeep(at)) => Err(Rejection::Refused(Refusal::TooDeep(at))),
        Err(ParseFault::NoMemory) => Err(Rejection::NoMemory),
    }
}

// The numbers of the input, or none for a source that doesn't ask for it.
fn numbers_for<S: Source>(alloc: Global, asks: bool, input: &mut S) -> Result<Words, InputFault>
    ensures { Giving asks (input_of (S.left input.old) (S.left input.new) (S.faults input.old) (S.faults input.new) (input.new ≡ input.old)) result }
{
    if !asks {
        return Ok(Words::new(alloc));
    }
    read_numbers(alloc, input)
}

// What `main` does with these numbers, and no reply to any call.
fn walk_main(alloc: Global, typed: &Typed, numbers: Words, budget: u64) -> Result<Yield, NoMemory>
    requires { budget ≤ greatest_budget }
    ensures meaning { IfOk result (λ y. y ≡ direct_run typed.now numbers budget) }
    ensures spent { IfOk result (λ y. y.end ≡ Spent → y.turns ≡ budget + 1) }
{
    let start = start_of_main(alloc, numbers);
    let replies = Replies::new(alloc);
    let done = walk(alloc, typed, &start, &replies, budget)?;
    Ok(done)
}

// The start of `main` with these numbers as its input.
fn start_of_main(alloc: Global, numbers: Words) -> BodyStart
    ensures { result ≡ main_start numbers }
{
    BodyStart {
        member: None,
        args: Words::new(alloc),
        state: Words::new(alloc),
        object: 0,
        number: 0,
        input: numbers,
    }
}

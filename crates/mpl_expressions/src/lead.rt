//! How many nodes begin with an operand, by the operators that come.

ghost use Rattle.std.specs.Prelude.{◌≡◌, ℕ, ◌+◌, ◌<◌, ◌≤◌, ◌^◌};
ghost use Rattle.mpl_trees.specs.Ahead as spec;
ghost use Rattle.mpl_expressions.specs.Internal.Lead.{IsCounted, IsScanned, IsStep, depth, step_depth, stepped};
ghost use Rattle.mpl_ast.specs.declared.token.TokenKind.TheVariants as kind;

use mpl_ast::token::{Mark, Token, TokenKind};
use mpl_reader::ahead::level_of;
use mpl_trees::position::Position;

/// Where one comes with a token.
#[derive(Clone, Copy)]
enum Step {
    To(Position),
    /// Behind an operator between operands.
    Operator(u32),
    /// Out of the expression.
    End,
}

/// A walk along an expression that counts its operators: of each level up to one that binds less.
#[derive(Drop)]
struct Scan {
    position: Position,
    /// The lowest level that is still counted.
    lowest: u32,
    found: usize,
}

/// How many nodes begin with the operand that comes, of the levels below.
pub fn lead(level: u32, tokens: &[Token]) -> usize
    ensures { result ≡ spec.lead level tokens.now }
{
    let mut scan = Scan {
        position: Position::Before,
        lowest: 0,
        found: 0,
    };
    for token in tokens {
        if !scan.step(level, &token.kind) {
            return scan.found + level as usize;
        }
    }
    scan.found + level as usize
}

impl Scan {
    /// Goes behind a token. It says whether there is more to count.
    fn step(&mut self, level: u32, kind: &TokenKind) -> bool
        requires found { self.old.found < 2 ^ 63 }
        requires depth { depth self.old.position < 2 ^ 63 }
        ensures scanned { IsScanned level kind.now self.old result self.new }
        ensures found { self.new.found ≤ self.old.found + 1 }
        ensures depth { depth self.new.position ≤ depth self.old.position + 1 }
    {
        match step_of(self.position, kind) {
            Step::To(position) => {
                self.position = position;
                true
            }
            Step::Operator(of) => self.operator(level, of),
            Step::End => false,
        }
    }

    /// Goes behind an operator.
    fn operator(&mut self, level: u32, of: u32) -> bool
        requires { self.old.found < 2 ^ 63 }
        ensures position { depth self.new.position ≡ 0 }
        ensures counted { IsCounted level of self.old result self.new }
        ensures found { self.new.found ≤ self.old.found + 1 }
    {
        self.position = Position::Before;
        if of >= level {
            return false;
        }
        if of >= self.lowest {
            self.lowest = of;
            self.found += 1;
        }
        true
    }
}

fn step_of(position: Position, kind: &TokenKind) -> Step
    requires { depth position < 2 ^ 63 }
    ensures step { IsStep kind.now position result }
    ensures depth { step_depth result ≤ depth position + 1 }
{
    match kind {
        TokenKind::Mark(mark) => behind_mark(position, *mark),
        _ => Step::To(behind_word(position)),
    }
}

fn behind_mark(position: Position, mark: Mark) -> Step
    requires { depth position < 2 ^ 63 }
    ensures step { IsStep (kind.Mark mark) position result }
    ensures depth { step_depth result ≤ depth position + 1 }
{
    match mark {
        Mark::OpenParenthesis | Mark::OpenBracket => Step::To(opened(position)),
        Mark::CloseParenthesis | Mark::CloseBracket => closed(position),
        Mark::Dot => Step::To(behind_word(position)),
        _ => behind_operator(position, level_of(mark)),
    }
}

fn behind_word(position: Position) -> Position
    ensures word { (go : _) → spec.counted_word position go ≡ go result }
    ensures depth { depth result ≡ depth position }
{
    match position {
        Position::Before | Position::Behind => Position::Behind,
        Position::Within(_) => position,
    }
}

fn opened(position: Position) -> Position
    requires { depth position < 2 ^ 63 }
    ensures opened { result ≡ spec.opened position }
    ensures depth { depth result ≡ depth position + 1 }
{
    match position {
        Position::Before | Position::Behind => Position::Within(0),
        Position::Within(brackets) => Position::Within(brackets + 1),
    }
}

fn closed(position: Position) -> Step
    ensures close { (level : ℕ) (go : _) → spec.counted_close position go ≡ stepped level result go }
    ensures depth { step_depth result ≤ depth position }
{
    match position {
        Position::Before | Position::Behind => Step::End,
        Position::Within(0) => Step::To(Position::Behind),
        Position::Within(brackets) => Step::To(Position::Within(brackets - 1)),
    }
}

/// Behind a mark that is an operator of the level, or of none.
fn behind_operator(position: Position, level: Option<u32>) -> Step
    ensures mark { (n : ℕ) (go : _) → spec.counted_mark n level position go ≡ stepped n result go }
    ensures depth { step_depth result ≤ depth position }
{
    match position {
        Position::Before => Step::To(position),
        Position::Within(_) => Step::To(position),
        Position::Behind => match level {
            Some(of) => Step::Operator(of),
            None => Step::End,
        },
    }
}

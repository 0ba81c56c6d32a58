ghost use Rattle.std.specs.Prelude.{◌≡◌};
ghost use Rattle.mpl_mean.specs.Accepted.{IsAcceptable};

use mpl_ast::program::Program;
use std::marker::Model;

/// An accepted program: at most 1,048,576 tokens have it, each with a weight of at most 64, and it keeps
/// all 26 type rules.
#[derive(Drop)]
pub struct Typed {
    program: Program,
}

impl Model for Typed {
    ghost use Rattle.mpl_ast.specs.declared.program.Program.{Program};
    ghost use Rattle.mpl_mean.specs.Accepted.{IsAcceptable};
    ghost use Rattle.std.specs.Coded.{codes};
    ghost use Rattle.mpl_ast.specs.contracts.expression.Expression as expression;
    ghost use Rattle.mpl_ast.specs.contracts.flow.Flow as flow;
    ghost use Rattle.mpl_ast.specs.contracts.statement.Statement as statement;

    ghost Value = { Program };

    ghost coded = { Prim.hlevel (codes, expression.the_row.coded, flow.the_row.coded, statement.the_row.coded) };

    ghost view = { λ t. t.program };

    ghost invariant = { λ t. IsAcceptable t.program };
}

impl Typed {
    /// The program, which is accepted, as one that is known to be.
    pub fn of(program: Program) -> Typed
        requires { IsAcceptable program }
        ensures { result ≡ program }
    {
        Typed { program }
    }

    pub fn program(&self) -> &Program
        ensures same { result.now ≡ self.now }
        ensures accepted { IsAcceptable result.now }
    {
        &self.program
    }
}

//! The expression that is one operand alone: a node of each level, with no row.

ghost use Rattle.std.specs.Prelude.{◌≡◌, [], ◌∷◌, ◌+◌, ◌<◌, ◌^◌};
ghost use Rattle.mpl_trees.specs.Folds as spec;
ghost use Rattle.mpl_trees.specs.Taking as taking;
ghost use Rattle.mpl_reader.specs.Reader.{most_number};
ghost use Rattle.mpl_folds.specs.Row.{Whole};

use crate::fold::{Conjunctions, Disjunctions, Equalities, Grade, Relations, Sums, Terms};
use mpl_ast::expression::Expression;
use mpl_ast::{At, Span};
use mpl_reader::Stop;
use mpl_trees::piece::{Piece, Start};

/// The node within, where its number is known to fit.
fn within(start: Start) -> Start
    requires { start.id + 1 < 2 ^ 32 }
    ensures { result ≡ record start { id = start.id + 1 } }
{
    Start {
        id: start.id + 1,
        ..start
    }
}

/// The node that begins there and ends with the operand.
fn place_to(start: Start, to: u32) -> At
    ensures { result ≡ taking.place start to }
{
    At {
        span: Span {
            from: start.from,
            to,
        },
        line: start.line,
        id: start.id,
    }
}

/// The expression that is one operand alone.
pub fn lone_operand(start: Start, piece: Piece) -> Result<Expression, Stop>
    ensures { Whole (spec.whole_row most_number start (piece ∷ [])) result }
{
    if start.id > u32::MAX - 6 {
        return Err(Stop::Stuck);
    }
    let conjunction = within(start);
    let equality = within(conjunction);
    let relation = within(equality);
    let sum = within(relation);
    let term = within(sum);
    let to = piece.to;
    let tree = Terms::one(place_to(term, to), piece.unary);
    let tree = Sums::one(place_to(sum, to), tree);
    let tree = Relations::one(place_to(relation, to), tree);
    let tree = Equalities::one(place_to(equality, to), tree);
    let tree = Conjunctions::one(place_to(conjunction, to), tree);
    Ok(Disjunctions::one(place_to(start, to), tree))
}

ghost use Rattle.std.specs.Prelude.{◌≡◌, true, false, [], ◌∷◌, ◌++◌, ◌+◌, List, Some};
ghost use Rattle.std.specs.Bool.{OnTrue};
ghost use Rattle.mdf_turn.specs.Prefixes.{StartsWith};

use crate::tally::Tally;
use mdf_turn::{Pass, Turn};
use std::sync::Wait;

/// One turn of a worker, in which it appends two entries. It appends none, and answers false, where its actor is out or
/// no memory is left.
pub fn visit<R: Wait>(
    rt: &R,
    turn: &Turn<Tally>,
    pass: Pass<Tally>,
    worker: u64,
    number: u64,
) -> (Pass<Tally>, bool)
    requires turn { pass.turn ≡ turn.now.table }
    requires outside { pass.inside ≡ false }
    requires nothing_held { pass.held ≡ [] }
    ensures pass { result.0 ≡ record pass { seen = result.0.seen } }
    ensures seen { StartsWith result.0.seen pass.seen }
    ensures added { OnTrue result.1 ((before : List _) × StartsWith before pass.seen × (result.0.seen ≡ before ++ (record { worker = worker; number = number; takes = true } ∷ record { worker = worker; number = number; takes = false } ∷ []))) }
{
    let mut entered = turn.enter(rt, pass);
    let is_free = !entered.value.is_out(worker);
    let added = is_free && entered.value.add(worker, number).is_ok();
    (turn.leave(entered), added)
}

/// So many turns of a worker, with rising numbers.
pub fn work<R: Wait>(
    rt: &R,
    turn: &Turn<Tally>,
    mut pass: Pass<Tally>,
    worker: u64,
    turns: u64,
) -> Pass<Tally>
    requires turn { pass.turn ≡ turn.now.table }
    requires outside { pass.inside ≡ false }
    requires nothing_held { pass.held ≡ [] }
    ensures pass { result ≡ record pass { seen = result.seen } }
    ensures seen { StartsWith result.seen pass.seen }
{
    for number in 0..turns {
        pass = visit(rt, turn, pass, worker, number).0;
    }
    pass
}

/// Puts the last two passes together, and ends the turn.
pub fn finish(turn: Turn<Tally>, a: Pass<Tally>, b: Pass<Tally>) -> Tally
    requires turn { (a.turn ≡ turn.table) × (b.turn ≡ turn.table) }
    requires outside { (a.inside ≡ false) × (b.inside ≡ false) }
    requires nothing_held { (a.held ≡ []) × (b.held ≡ []) }
    requires all { a.parts + b.parts ≡ turn.parts }
    ensures name { a.root ≡ Some result.name }
{
    let pass = turn.join(a, b);
    turn.close(pass)
}

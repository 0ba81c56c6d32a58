use crate::law::TurnSeat;
use crate::logged::Logged;
use std::marker::Model;

/// What lets a worker take the turn, and what it knows of the log. It is used up by each call, which gives a new one.
#[derive(Drop)]
pub struct Pass<T: Logged> {
    pub(crate) seat: TurnSeat<T>,
    // The turns given before its own, while it is inside.
    pub(crate) turns: u64,
}

impl<T: Logged> Model for Pass<T> {
    ghost use Rattle.mdf_turn.specs.Passes.{PassState};
    ghost use Rattle.mdf_turn.specs.Hands.{IsInOrder};

    ghost Value = { PassState T.Job T.Event };

    ghost view = { λ p. record { turn = p.seat.table_id; root = p.seat.me.0.root; seen = p.seat.me.0.seen; held = p.seat.me.0.held; parts = p.seat.me.0.parts; inside = p.seat.me.0.inside } };

    ghost invariant = { λ p. IsInOrder p.seat.me p.turns };
}

/// The value, out of its place, and the pass that took it. It ends in `leave`.
#[derive(Drop)]
pub struct Entered<T: Logged> {
    pub value: T,
    pub pass: Pass<T>,
}

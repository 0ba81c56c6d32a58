//! The rule of the table, and what each step tells.
ghost use Rattle.mdf_turn.specs.Rule.{Kept, opened};
ghost use Rattle.mdf_turn.specs.Steps.{tried, given, Looks, view_kept, view_cut, view_joined, view_spent};

use crate::logged::Logged;
use crate::view::View;
use atomic_table::{Join, Play, Seat, Shared, Split, TableRule};
use std::snapshot::Snapshot;

/// What the table is told when it is made.
#[derive(Drop)]
pub struct Opening<T> {
    pub value: Snapshot<T>,
    pub parts: u32,
}

pub struct Law;

impl<T: Logged> TableRule<Option<T>, View<T::Job, T::Event>, Opening<T>> for Law {
    ghost holds = { λ o. Kept T.job T.events T.actor T.is_out (T.job o.value.value) o.parts };

    ghost first = { λ o. opened (T.job o.value.value) (T.events o.value.value) o.parts };
}

pub struct Take;

impl<T: Logged> Play<Option<T>, View<T::Job, T::Event>> for Take {
    ghost then = { tried T.job T.events T.actor };
}

pub struct Give;

impl<T: Logged> Play<Option<T>, View<T::Job, T::Event>> for Give {
    ghost then = { given T.events T.actor T.is_out T.has_ended };
}

pub struct Look;

impl<T: Logged> Play<Option<T>, View<T::Job, T::Event>> for Look {
    ghost then = { Looks };
}

pub struct Part;

impl<J, E> Split<View<J, E>> for Part {
    ghost left = { view_kept };

    ghost right = { view_cut };
}

pub struct Both;

impl<J, E> Join<View<J, E>> for Both {
    ghost both = { view_joined };

    ghost spent = { view_spent };
}

pub type TurnShared<T> = Shared<
    Option<T>,
    View<<T as Logged>::Job, <T as Logged>::Event>,
    Opening<T>,
    Law,
>;

pub type TurnSeat<T> = Seat<Option<T>, View<<T as Logged>::Job, <T as Logged>::Event>>;

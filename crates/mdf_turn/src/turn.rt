use crate::law::{Both, Give, Law, Look, Opening, Part};
use crate::logged::Logged;
use crate::pass::{Entered, Pass};
use crate::steps::{slot_in, slot_out, take};
use crate::view::View;
use atomic_table::{Refused, Table};
use std::alloc::{AllocError, Global};
use std::marker::Model;
use std::snapshot::Snapshot;
use std::sync::Wait;

// The word from which on no turn is taken: there is no number left for the give.
const LAST: u64 = u64::MAX - 1;

/// One value that workers share by turns. Its word is twice the number of turns given, and one more while the turn is
/// held; the value lies in the one slot while the turn is free.
#[derive(Drop)]
pub struct Turn<T: Logged> {
    table: Table<Option<T>, View<T::Job, T::Event>, Opening<T>, Law, Global>,
}

impl<T: Logged> Model for Turn<T> {
    ghost use Rattle.std.specs.Prelude.{◌≡◌};
    ghost use Rattle.mdf_turn.specs.Passes.{TurnState};

    ghost Value = { TurnState };

    ghost view = { λ t. record { table = t.table.shared.table_id; parts = t.table.shared.key.parts } };

    ghost invariant = { λ t. (t.table.shared.table_id.words ≡ 1) × (t.table.shared.table_id.slots ≡ 1) };
}

impl<T: Logged> Turn<T> {
    ghost use Rattle.std.specs.Prelude.{◌≡◌, ◌+◌, ◌-◌, ◌<◌, ◌≤◌, true, false, [], ◌++◌, Some, IfOk};
    ghost use Rattle.mdf_turn.specs.Prefixes.{StartsWith, after, longer};
    ghost use Rattle.mdf_turn.specs.Actors.{NameNone, NameOnlyFree, held_after};

    /// A turn that is free, and a pass with all its parts. At `Err` the value is dropped.
    pub fn open(alloc: Global, value: T, parts: u32) -> Result<(Turn<T>, Pass<T>), AllocError>
        requires { 0 < parts }
        ensures parts { IfOk result (λ o. o.0.parts ≡ parts) }
        ensures pass { IfOk result (λ o. o.1 ≡ record { turn = o.0.table; root = Some (T.job value); seen = T.events value; held = []; parts = parts; inside = false }) }
    {
        let opening = Opening {
            value: Snapshot::of(&value),
            parts,
        };
        let mut slots = Vec::with_capacity(alloc, 1)?;
        slots.push_reserved(Some(value));
        match Table::new(alloc, &[0], slots, &opening) {
            Ok((table, seat)) => Ok((Turn { table }, Pass { seat, turns: 0 })),
            Err(Refused { slots: _ }) => Err(AllocError),
        }
    }

    /// Waits for the turn, and takes it with the value.
    pub fn enter<R: Wait>(&self, rt: &R, pass: Pass<T>) -> Entered<T>
        requires turn { pass.turn ≡ self.now.table }
        requires outside { pass.inside ≡ false }
        ensures pass { result.pass ≡ record pass { seen = T.events result.value; inside = true } }
        ensures job { pass.root ≡ Some (T.job result.value) }
        ensures seen { StartsWith (T.events result.value) pass.seen }
        ensures calm { NameNone T.actor (after pass.seen (T.events result.value)) pass.held }
    {
        let Pass { mut seat, turns: _ } = pass;
        let shared = &self.table.shared;
        for _ in rt.forever() {
            let word = shared.peek(0);
            if word % 2 == 0 && word < LAST {
                if take(shared, &mut seat, word) {
                    let value = slot_out(shared, &mut seat);
                    let pass = Pass {
                        seat,
                        turns: word / 2,
                    };
                    return Entered { value, pass };
                }
            } else {
                shared.park(rt, 0, (word & 0xffff_ffff) as u32);
            }
        }
        unreachable!()
    }

    /// Puts the value back, with what was appended to its log, and gives the turn up.
    pub fn leave(&self, entered: Entered<T>) -> Pass<T>
        requires turn { entered.pass.turn ≡ self.now.table }
        requires inside { entered.pass.inside ≡ true }
        requires job { entered.pass.root ≡ Some (T.job entered.value) }
        requires seen { StartsWith (T.events entered.value) entered.pass.seen }
        requires free { NameOnlyFree T.actor T.is_out (after entered.pass.seen (T.events entered.value)) entered.pass.held entered.pass.seen }
        ensures { result ≡ record entered.pass { seen = T.events entered.value; held = held_after T.actor T.is_out T.has_ended entered.pass.held entered.pass.seen (T.events entered.value); inside = false } }
    {
        let Entered { value, pass } = entered;
        let Pass { mut seat, turns } = pass;
        let shared = &self.table.shared;
        slot_in(shared, &mut seat, value);
        shared.store::<Give>(&mut seat, 0, 2 * turns + 2);
        shared.wake_one(0);
        Pass { seat, turns: 0 }
    }

    /// Cuts one part off, for another worker. What is held stays with the first.
    pub fn split(&self, pass: Pass<T>) -> (Pass<T>, Pass<T>)
        requires turn { pass.turn ≡ self.now.table }
        requires outside { pass.inside ≡ false }
        requires parts { 2 ≤ pass.parts }
        ensures first { result.0 ≡ record pass { parts = pass.parts - 1 } }
        ensures second { result.1 ≡ record pass { held = []; parts = 1 } }
    {
        let Pass { mut seat, turns } = pass;
        let cut = self.table.shared.split_seat::<Part>(&mut seat);
        (
            Pass { seat, turns },
            Pass {
                seat: cut,
                turns: 0,
            },
        )
    }

    /// Puts two passes together.
    pub fn join(&self, a: Pass<T>, b: Pass<T>) -> Pass<T>
        requires turn { (a.turn ≡ self.now.table) × (b.turn ≡ self.now.table) }
        requires outside { (a.inside ≡ false) × (b.inside ≡ false) }
        ensures pass { result ≡ record a { seen = longer a.seen b.seen; held = a.held ++ b.held; parts = a.parts + b.parts } }
        ensures seen { StartsWith result.seen a.seen × StartsWith result.seen b.seen }
        ensures root { a.root ≡ b.root }
    {
        let Pass { mut seat, turns } = a;
        let Pass {
            seat: other,
            turns: _,
        } = b;
        let shared = &self.table.shared;
        shared.join_seat::<Both>(&mut seat, other);
        shared.load::<Look>(&mut seat, 0);
        Pass { seat, turns }
    }

    /// Ends the turn, by the only pass that is left.
    pub fn close(self, pass: Pass<T>) -> T
        requires turn { pass.turn ≡ self.table }
        requires outside { pass.inside ≡ false }
        requires all { pass.parts ≡ self.parts }
        requires nothing_held { pass.held ≡ [] }
        ensures job { pass.root ≡ Some (T.job result) }
        ensures seen { StartsWith (T.events result) pass.seen }
    {
        let Pass { seat, turns: _ } = pass;
        let Turn { table } = self;
        let mut closed = table.close_with(seat);
        let value = closed.take(0).unwrap();
        closed.free();
        value
    }
}

//! The steps that a worker makes to get the turn with its value, and the first of those that give them back.
ghost use Rattle.std.specs.Prelude.{◌≡◌, ◌≢◌, ◌+◌, ◌*◌, ◌%◌, ◌/◌, ◌^◌, ◌<◌, MatchBool, true, false, [], ◌∷◌, Some, None};
ghost use Rattle.mdf_turn.specs.Steps.{Takes, SlotOut, SlotIn};

use crate::law::{Take, TurnSeat, TurnShared};
use crate::logged::Logged;

/// Tries to take the turn, where the word was found even.
pub fn take<T: Logged>(shared: &TurnShared<T>, seat: &mut TurnSeat<T>, word: u64) -> bool
    requires table { (seat.old.table_id ≡ shared.now.table_id) × (shared.now.table_id.words ≡ 1) × (shared.now.table_id.slots ≡ 1) }
    requires seat { (seat.old.me.0.inside ≡ false) × (0 < seat.old.me.0.parts) × (seat.old.me.1 ≡ []) }
    requires word { (word % 2 ≡ 0) × (word + 1 < 2 ^ 64) }
    ensures table { seat.new.table_id ≡ seat.old.table_id }
    ensures step { MatchBool result (Takes T.job T.events T.actor (word / 2) seat.old.me seat.new.me) (seat.new.me ≡ seat.old.me) }
{
    shared.compare_exchange::<Take>(seat, 0, word, word + 1) == word
}

/// Takes the value out of its slot.
pub fn slot_out<T: Logged>(shared: &TurnShared<T>, seat: &mut TurnSeat<T>) -> T
    requires table { seat.old.table_id ≡ shared.now.table_id }
    requires slot { (value : T) × (seat.old.me.1 ≡ (0, Some value) ∷ []) }
    ensures table { seat.new.table_id ≡ seat.old.table_id }
    ensures step { SlotOut result seat.old.me seat.new.me }
{
    shared.exchange(seat, 0, None).unwrap()
}

/// Puts the value back into its slot.
pub fn slot_in<T: Logged>(shared: &TurnShared<T>, seat: &mut TurnSeat<T>, value: T)
    requires table { seat.old.table_id ≡ shared.now.table_id }
    requires slot { seat.old.me.1 ≡ (0, None) ∷ [] }
    ensures table { seat.new.table_id ≡ seat.old.table_id }
    ensures step { SlotIn value seat.old.me seat.new.me }
{
    drop(shared.exchange(seat, 0, Some(value)));
}

//! The meaning of the language: which text a program has, which programs are well typed, and what they
//! do. Definitions, and laws about them.
#![tactic(auto)]

mod laws;
mod typed;
mod worked;

pub use laws::{
    allowances_are_exact, calls_are_numbered, calls_in_place_are_bodies_alone,
    more_replies_only_add, more_turns_change_nothing, only_replies_are_awaited, refusals_are_least,
    seven_rules_are_enough, sizes_are_kept, tokens_are_few,
};
pub use typed::Typed;
pub use worked::{
    calls_have_their_yields, loops_have_their_turns, parts_have_their_order, replies_are_awaited,
    traps_have_their_lines,
};

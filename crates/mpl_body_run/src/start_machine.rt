ghost use Rattle.std.specs.Prelude.{◌≡◌, [], map, true, IfOk};
ghost use Rattle.mpl_value.specs.declared.body.Arg.TheVariants.{Know};
ghost use Rattle.mpl_value.specs.declared.body.BodyResult.TheVariants as variant;
ghost use Rattle.mpl_body_run.specs.Seen.{machine_seen};
ghost use Rattle.mpl_body_run.specs.Splitting.{split_by};

use crate::arguments::take_arguments;
use crate::machine::{Body, Frame, Input, Machine};
use crate::stack::{Slots, Stack};
use crate::word_list::as_item;
use mpl_body_code::Finish;
use mpl_value::{BodyResult, BodyStart, Bytes, Calls, NoMemory, Words};
use std::alloc::Global;

/// Words in pieces of these lengths, as variables, the first the newest.
#[tactic(auto, using(crate::proofs::Pieces::one_piece, crate::proofs::Pieces::all_pieces))]
pub fn slots_of(alloc: Global, counts: &[usize], words: &[i64]) -> Result<Slots, NoMemory>
    ensures { IfOk result (λ slots. slots ≡ map Know (split_by counts.now words.now)) }
{
    let mut pieces = Stack::new(alloc);
    let mut rest = words;
    for count in counts {
        let within = (*count).min(rest.len());
        let piece = Words::from_slice(alloc, &rest[..within])?;
        pieces.push(as_item(alloc, piece, false)?)?;
        rest = &rest[within..];
    }
    let arguments = take_arguments(alloc, &mut pieces, counts.len())?;
    Ok(arguments.into_slots())
}

/// A body that begins at a place.
pub fn machine_of(
    alloc: Global,
    start: &BodyStart,
    object: i64,
    entry: usize,
    finish: Finish,
    slots: Slots,
) -> Result<Machine, NoMemory>
    ensures seen { IfOk result (λ m. machine_seen m ≡ record {
      frame = record { place = entry; stack = []; slots = slots; object = object; number = start.now.number };
      body = record { state = start.now.state; lines = []; input = start.now.input; calls = []; creations = []; result = variant.Open; finish = finish; answered = true };
      callers = [];
      turns = 0;
    }) }
    ensures callers { IfOk result (λ m. m.callers.items ≡ []) }
{
    let state = start.state.copy()?;
    let input = Input::new(start.input.copy()?);
    let frame = Frame {
        place: entry,
        stack: Stack::new(alloc),
        slots,
        object,
        number: start.number,
    };
    let body = Body {
        state,
        lines: Bytes::new(alloc),
        input,
        calls: Calls::new(alloc),
        creations: Words::new(alloc),
        result: BodyResult::Open,
        finish,
        answered: true,
    };
    Ok(Machine {
        frame,
        body,
        callers: Vec::new(alloc),
        turns: 0,
    })
}

//! The code of places: what is needed before a variable is used, and how its words are read.

ghost use Rattle.std.specs.Prelude.{◌≡◌, option_map, OnOk};
ghost use Rattle.mpl_gen_code.specs.ExpressionCode.{element_from, element_of, load_from, load_of, need_of, need_of_slot, read_code};
ghost use Rattle.mpl_gen_expr.specs.Drafts.{drafted};
ghost use Rattle.mpl_gen_expr.specs.Texts.{written};
ghost use Rattle.mpl_gen_scope.specs.SeenScope.{found_seen};

use crate::codes::Codes;
use crate::draft::Draft;
use mpl_gen_scope::found::Found;
use mpl_value::NoMemory;

/// A variable whose use is marked is needed before.
#[tactic(auto, using(crate::proofs::Texts::none_written))]
pub fn need(codes: &mut Codes, marked: bool, found: Option<Found>) -> Result<(), NoMemory>
    ensures { OnOk result (codes.new ≡ written (need_of marked (option_map found_seen found.entry)) codes.old) }
{
    match found {
        Some(found) => {
            if marked {
                need_found(codes, found)
            } else {
                Ok(())
            }
        }
        None => Ok(()),
    }
}

/// The variable that a place is in, if it is in one, is needed.
#[tactic(auto, using(crate::proofs::Texts::none_written))]
pub fn need_found(codes: &mut Codes, found: Found) -> Result<(), NoMemory>
    ensures { OnOk result (codes.new ≡ written (need_of_slot (found_seen found.entry).slot) codes.old) }
{
    match found.slot {
        Some(slot) => codes.push(Draft::Need(slot.number)),
        None => Ok(()),
    }
}

#[tactic(auto, using(crate::proofs::Texts::none_written))]
fn load(codes: &mut Codes, found: Option<Found>) -> Result<(), NoMemory>
    ensures { OnOk result (codes.new ≡ written (load_of (option_map found_seen found.entry)) codes.old) }
{
    match found {
        Some(found) => codes.push(load_from(found)),
        None => Ok(()),
    }
}

fn load_from(found: Found) -> Draft
    ensures { drafted result ≡ load_from (found_seen found.entry) (found_seen found.entry).slot }
{
    match found.slot {
        Some(slot) => Draft::Load(slot.number, found.offset, found.words),
        None => Draft::Fetch(found.offset, found.words),
    }
}

#[tactic(auto, using(crate::proofs::Texts::joined_written))]
pub fn read(codes: &mut Codes, marked: bool, found: Option<Found>) -> Result<(), NoMemory>
    ensures { OnOk result (codes.new ≡ written (read_code marked (option_map found_seen found.entry)) codes.old) }
{
    need(codes, marked, found)?;
    load(codes, found)
}

#[tactic(auto, using(crate::proofs::Texts::none_written))]
pub fn element(codes: &mut Codes, line: u32, found: Option<Found>) -> Result<(), NoMemory>
    ensures { OnOk result (codes.new ≡ written (element_of line (option_map found_seen found.entry)) codes.old) }
{
    match found {
        Some(found) => codes.push(element_from(line, found)),
        None => Ok(()),
    }
}

fn element_from(line: u32, found: Found) -> Draft
    ensures { drafted result ≡ element_from line (found_seen found.entry) (found_seen found.entry).slot }
{
    match found.slot {
        Some(slot) => Draft::LoadIndexed(slot.number, found.offset, found.words, line),
        None => Draft::FetchIndexed(found.offset, found.words, line),
    }
}

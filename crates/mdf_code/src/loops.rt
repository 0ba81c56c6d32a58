ghost use Rattle.std.specs.Prelude.{◌≡◌, ◌+◌, ◌<◌, ◌≤◌, ◌&&◌, length, not, slice_get, true, false, IfOk};
ghost use Rattle.std.specs.List.{list_all};
ghost use Rattle.mdf_code.specs.Images as images;
ghost use Rattle.mdf_code.specs.Marks.{IsClosed, IsRight, is_marked, marks};

use crate::instr::Instr;
use mpl_value::NoMemory;
use std::alloc::Global;

/// Whether each way round a loop of the code passes a test. Places are marked from which each way on comes to a test or an
/// end, until no more are found.
pub fn loops_pass(alloc: Global, code: &[Instr]) -> Result<bool, NoMemory>
    ensures { IfOk result (λ pass. pass ≡ images.loops_pass code.now) }
{
    let mut marked = vec![in alloc; false; code.len()]?;
    Ok(marks_all(code, marked.as_mut_slice()))
}

/// Marks places until no more are found, and says whether all are marked.
fn marks_all(code: &[Instr], marked: &mut [bool]) -> bool
    requires same { length marked.old ≡ length code.now }
    requires right { IsRight code.now marked.old }
    ensures { result ≡ images.loops_pass code.now }
{
    while mark_more(code, marked) {}
    are_all(marked)
}

fn are_all(marked: &[bool]) -> bool
    ensures { result ≡ list_all (λ mark. mark) marked.now }
{
    marked.iter().all(|mark| *mark)
}

/// Marks places from which each way on leads to marked places alone, from the end of the code on, and says whether there
/// were any.
fn mark_more(code: &[Instr], marked: &mut [bool]) -> bool
    requires same { length marked.old ≡ length code.now }
    requires right { IsRight code.now marked.old }
    ensures same { length marked.new ≡ length code.now }
    ensures right { IsRight code.now marked.new }
    ensures more { result ≡ true → marks marked.old < marks marked.new }
    ensures closed { result ≡ false → IsClosed code.now marked.new }
{
    let mut more = false;
    let mut place = code.len();
    while place > 0 {
        place -= 1;
        if can_mark(code, place, marked) {
            marked[place] = true;
            more = true;
        }
    }
    more
}

/// Whether a place has no mark, and each way on from it leads to a marked place.
fn can_mark(code: &[Instr], place: usize, marked: &[bool]) -> bool
    requires within { place < length code.now }
    requires same { length marked.now ≡ length code.now }
    ensures { result ≡ (not (is_marked marked.now place) && images.all_ways (is_marked marked.now) (slice_get code.now place) place) }
{
    !is_at_mark(marked, place) && ways_are_marked(&code[place], place, marked)
}

/// Whether each way on from an instruction leads to a marked place.
fn ways_are_marked(instruction: &Instr, place: usize, marked: &[bool]) -> bool
    requires { place < length marked.now }
    ensures { result ≡ list_all (is_marked marked.now) (images.ways_on instruction.now place) }
{
    match instruction {
        Instr::Jump(target) => is_at_mark(marked, *target as usize),
        Instr::JumpZero(target) => {
            is_at_mark(marked, *target as usize) && is_at_mark(marked, place + 1)
        }
        Instr::Test | Instr::Return(_) | Instr::End(_) | Instr::Fail(_) => true,
        _ => is_at_mark(marked, place + 1),
    }
}

/// Whether a place is marked, or past the end.
fn is_at_mark(marked: &[bool], place: usize) -> bool
    ensures { result ≡ is_marked marked.now place }
{
    marked.get(place).copied().unwrap_or(true)
}

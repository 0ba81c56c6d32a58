ghost use Rattle.std.specs.Prelude.{◌≡◌, ◌<◌, ℕ, length, map, pos, slice_get, true};
ghost use Rattle.std.specs.Option.{option_copied};
ghost use Rattle.mdf_code.specs.Frames.{InGuard};
ghost use Rattle.mdf_code.specs.Guards as guards;
ghost use Rattle.mdf_code.specs.Images.{is_guard_from, stands_in_guard};
ghost use Rattle.mdf_code.specs.Parts.{text_at};
ghost use Rattle.mdf_code.specs.declared.raw.RawImage.{RawImage};
ghost use Rattle.mdf_vm.specs.GuardFormals.{EntryHas};
ghost use Rattle.mdf_vm.specs.Internal.Guarded.{GuardDid};

use crate::calls::first;
use crate::formals::Formals;
use crate::guarding::Guarding;
use crate::operation::{Comparison, Operation};
use crate::short_stack::ShortStack;
use mdf_code::{Image, Instr};
use mpl_value::Words;

/// Whether an entry holds. It takes no memory.
pub fn holds<F: Formals>(image: &Image, entry: u32, formals: &F, state: &Words) -> bool
    requires { EntryHas image.now (F.words formals.now) (slice_get image.now.entries entry) }
    ensures { result ≡ guards.holds image.now entry (F.words formals.now) state.now }
{
    let raw = image.raw();
    let Some(case) = raw.entries.get(entry as usize) else {
        return false;
    };
    let Some(guard) = &case.guard else {
        return true;
    };
    let Some(member) = raw.members.get(case.member.0 as usize) else {
        return false;
    };
    let sizes = first(member.body.vars.as_slice(), member.formals);
    runs(guard.as_slice(), sizes, formals, state.as_slice())
}

/// Whether a guard comes to its end with one word, which isn't 0.
fn runs<F: Formals>(guard: &[Instr], sizes: &[u32], formals: &F, state: &[i64]) -> bool
    requires sound { is_guard_from 0 guard.now ≡ true }
    requires fits { map length (F.words formals.now) ≡ sizes.now }
    ensures { (image : RawImage) (entry : ℕ) → text_at image (InGuard entry) ≡ guard.now → result ≡ guards.runs_guard (length guard.now) (record { image = image; object = pos 0 }) (guards.guard_frame entry (F.words formals.now) state.now) }
{
    let mut going = Guarding {
        place: 0,
        words: ShortStack::new(),
    };
    for _step in 0..guard.len() {
        let Some(instruction) = instruction_of(guard, going.place) else {
            return going.words.pop_true();
        };
        if !going.step(guard.len(), sizes, formals, state, instruction) {
            return false;
        }
    }
    going.words.pop_true()
}

fn instruction_of(guard: &[Instr], place: usize) -> Option<&Instr>
    ensures { option_copied result ≡ slice_get guard.now place }
{
    guard.get(place)
}

impl Guarding {
    /// An instruction of a guard of so many.
    fn step<F: Formals>(
        &mut self,
        count: usize,
        sizes: &[u32],
        formals: &F,
        state: &[i64],
        instruction: &Instr,
    ) -> bool
        requires within { self.old.place < count }
        requires stands { stands_in_guard self.old.place instruction.now ≡ true }
        requires fits { map length (F.words formals.now) ≡ sizes.now }
        ensures { (image : RawImage) (entry : ℕ) → length (text_at image (InGuard entry)) ≡ count → GuardDid (record { image = image; entry = entry; formals = F.words formals.now; state = state.now }) instruction.now self.old result self.new }
    {
        let next = self.place + 1;
        match instruction {
            Instr::Push(word) => self.push(next, word),
            Instr::Drop(count) => self.drop_words(next, *count),
            Instr::Load(variable, offset, words) => self.load(
                next, sizes, formals, *variable, *offset, *words,
            ),
            Instr::LoadIndexed(variable, offset, words, _) => self.load_indexed(
                next, sizes, formals, *variable, *offset, *words,
            ),
            Instr::Fetch(offset, words) => self.fetch(next, state, *offset, *words),
            Instr::FetchIndexed(offset, words, _) => self.fetch_indexed(
                next, state, *offset, *words,
            ),
            Instr::Add(_) => self.compute(next, Operation::Add),
            Instr::Sub(_) => self.compute(next, Operation::Sub),
            Instr::Mul(_) => self.compute(next, Operation::Mul),
            Instr::Div(_) => self.compute(next, Operation::Div),
            Instr::Rem(_) => self.compute(next, Operation::Rem),
            Instr::Neg(_) => self.negate(next),
            Instr::Not => self.invert(next),
            Instr::Equal => self.compare(next, Comparison::Equal),
            Instr::NotEqual => self.compare(next, Comparison::NotEqual),
            Instr::Less => self.compare(next, Comparison::Less),
            Instr::LessEqual => self.compare(next, Comparison::LessEqual),
            Instr::Greater => self.compare(next, Comparison::Greater),
            Instr::GreaterEqual => self.compare(next, Comparison::GreaterEqual),
            Instr::Jump(place) => self.jump(count, *place),
            Instr::JumpZero(place) => self.jump_zero(next, count, *place),
            _ => unreachable!(),
        }
    }
}

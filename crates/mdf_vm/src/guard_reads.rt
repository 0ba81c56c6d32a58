ghost use Rattle.std.specs.Prelude.{◌≡◌, ◌+◌, ◌^◌, ◌≤◌, ◌<◌, ℕ, ℤ, List, length, map, slice_get, Some};
ghost use Rattle.mpl_value.specs.Words.{words_at};
ghost use Rattle.mdf_code.specs.Frames.{InGuard};
ghost use Rattle.mdf_code.specs.Parts.{text_at};
ghost use Rattle.mdf_code.specs.Stacks.{pushed};
ghost use Rattle.mdf_code.specs.declared.instr.Instr.TheVariants as instr;
ghost use Rattle.mdf_code.specs.declared.raw.RawImage.{RawImage};
ghost use Rattle.mdf_vm.specs.Internal.Guarded.{GuardDid, Looks};

use crate::formals::Formals;
use crate::guarding::Guarding;
use crate::short_stack::ShortStack;
use crate::words::{index_within, read, read_one};

impl Guarding {
    /// On at a place of a guard of so many instructions.
    pub fn jump(&mut self, count: usize, place: u32) -> bool
        ensures { (looks : Looks) → length (text_at looks.image (InGuard looks.entry)) ≡ count → GuardDid looks (instr.Jump place) self.old result self.new }
    {
        let _few = self.words.len();
        if place as usize > count {
            return false;
        }
        self.place = place as usize;
        true
    }

    pub fn jump_zero(&mut self, next: usize, count: usize, place: u32) -> bool
        requires { next ≡ self.old.place + 1 }
        ensures { (looks : Looks) → length (text_at looks.image (InGuard looks.entry)) ≡ count → GuardDid looks (instr.JumpZero place) self.old result self.new }
    {
        if place as usize > count {
            return false;
        }
        let Some(word) = self.words.pop() else {
            return false;
        };
        self.place = if word == 0 { place as usize } else { next };
        true
    }

    pub fn fetch(&mut self, next: usize, state: &[i64], offset: u32, count: u32) -> bool
        requires { next ≡ self.old.place + 1 }
        ensures { (image : RawImage) (entry : ℕ) (formals : List (List ℤ)) → GuardDid (record { image = image; entry = entry; formals = formals; state = state.now }) (instr.Fetch offset count) self.old result self.new }
    {
        let Some(words) = read(state, offset, count) else {
            return false;
        };
        if words.len() > self.words.room() {
            return false;
        }
        self.words.extend(words);
        self.place = next;
        true
    }

    pub fn fetch_indexed(&mut self, next: usize, state: &[i64], offset: u32, count: u32) -> bool
        requires { next ≡ self.old.place + 1 }
        ensures { (image : RawImage) (entry line : ℕ) (formals : List (List ℤ)) → GuardDid (record { image = image; entry = entry; formals = formals; state = state.now }) (instr.FetchIndexed offset count line) self.old result self.new }
    {
        let Some(array) = read(state, offset, count) else {
            return false;
        };
        let Some(index) = self.words.pop() else {
            return false;
        };
        let Some(place) = index_within(count, index) else {
            return false;
        };
        let Some(word) = read_one(array, place) else {
            return false;
        };
        self.words.push(&word);
        self.place = next;
        true
    }

    pub fn load<F: Formals>(
        &mut self,
        next: usize,
        sizes: &[u32],
        formals: &F,
        variable: u32,
        offset: u32,
        count: u32,
    ) -> bool
        requires next { next ≡ self.old.place + 1 }
        requires fits { map length (F.words formals.now) ≡ sizes.now }
        ensures { (image : RawImage) (entry : ℕ) (state : List ℤ) → GuardDid (record { image = image; entry = entry; formals = F.words formals.now; state = state }) (instr.Load variable offset count) self.old result self.new }
    {
        let Some(size) = size_at(sizes, variable) else {
            return false;
        };
        if offset as usize + count as usize > size as usize {
            return false;
        }
        if count as usize > self.words.room() {
            return false;
        }
        self.words.take_words(formals, variable, offset, count);
        self.place = next;
        true
    }

    pub fn load_indexed<F: Formals>(
        &mut self,
        next: usize,
        sizes: &[u32],
        formals: &F,
        variable: u32,
        offset: u32,
        count: u32,
    ) -> bool
        requires next { next ≡ self.old.place + 1 }
        requires fits { map length (F.words formals.now) ≡ sizes.now }
        ensures { (image : RawImage) (entry line : ℕ) (state : List ℤ) → GuardDid (record { image = image; entry = entry; formals = F.words formals.now; state = state }) (instr.LoadIndexed variable offset count line) self.old result self.new }
    {
        let Some(size) = size_at(sizes, variable) else {
            return false;
        };
        if offset as usize + count as usize > size as usize {
            return false;
        }
        let Some(index) = self.words.pop() else {
            return false;
        };
        let Some(place) = index_within(count, index) else {
            return false;
        };
        let word = formals.word(variable, offset + place);
        self.words.push(&word);
        self.place = next;
        true
    }
}

fn size_at(sizes: &[u32], formal: u32) -> Option<u32>
    ensures { result ≡ slice_get sizes.now formal }
{
    sizes.get(formal as usize).copied()
}

impl ShortStack {
    /// So many words of a formal, one after another.
    fn take_words<F: Formals>(&mut self, formals: &F, formal: u32, offset: u32, count: u32)
        requires room { length self.old + count ≤ 128 }
        requires few { offset + count < 2 ^ 32 }
        requires there { (words : List ℤ) × (slice_get (F.words formals.now) formal ≡ Some words) × (offset + count ≤ length words) }
        ensures { (words : List ℤ) → slice_get (F.words formals.now) formal ≡ Some words → self.new ≡ pushed (words_at offset count words) self.old }
    {
        for place in 0..count {
            let word = formals.word(formal, offset + place);
            self.push(&word);
        }
    }
}

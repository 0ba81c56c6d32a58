ghost use Rattle.std.specs.Prelude.{◌≡◌, ◌∷◌, [], ◌<◌, length, drop, MatchOption, OnOk, OnErr};
ghost use Rattle.mdf_code.specs.Stacks.{pushed};

use crate::code::CodeKind;
use crate::held::Held;
use crate::stack::Stack;
use crate::variables::Variables;
use crate::word_stack::WordStack;
use mpl_value::{Bytes, NoMemory, Words};
use std::alloc::Global;
use std::marker::Model;

/// A flow value, and how many words it has or will have.
#[derive(Drop)]
pub struct Flow {
    value: Held,
    words: u32,
}

impl Model for Flow {
    ghost use Rattle.mdf_code.specs.Alone as alone;
    ghost use Rattle.mdf_code.specs.Frames as frames;

    ghost Value = { frames.Flow alone.Held };

    ghost view = { λ f. record { value = f.value; words = f.words } };
}

impl Flow {
    pub fn new(value: Held, words: u32) -> Flow
        ensures { result ≡ record { value = value; words = words } }
    {
        Flow { value, words }
    }

    pub fn size(&self) -> u32
        ensures { result ≡ self.now.words }
    {
        self.words
    }

    pub fn value(&self) -> &Held
        ensures { result.now ≡ self.now.value }
    {
        &self.value
    }

    pub fn into_value(self) -> Held
        ensures { result ≡ self.value }
    {
        self.value
    }
}

/// What a plain function goes back to.
#[derive(Drop)]
pub struct Caller {
    pub code: CodeKind,
    pub place: usize,
    pub words: WordStack,
    pub flows: Stack<Flow>,
    pub variables: Variables,
}

impl Model for Caller {
    ghost use Rattle.mdf_code.specs.Alone as alone;
    ghost use Rattle.mdf_code.specs.Frames as frames;

    ghost Value = { frames.Caller alone.Held };

    ghost use Rattle.mdf_vm.specs.Places.{code_of};

    ghost view = { λ c. record { code = code_of c.code; place = c.place; words = c.words; flows = c.flows; variables = c.variables } };
}

impl Caller {
    /// A caller that has nothing and takes no memory.
    pub fn none(alloc: Global) -> Caller {
        Caller {
            code: CodeKind::Main,
            place: 0,
            words: WordStack::new(alloc),
            flows: Stack::new(alloc),
            variables: Variables::new(alloc),
        }
    }

    /// Words on top of those that it has.
    pub fn take(&mut self, words: &[i64]) -> Result<(), NoMemory>
        ensures ok { OnOk result (self.new ≡ record self.old { words = pushed words.now self.old.words }) }
        ensures err { OnErr result (self.new ≡ self.old) }
    {
        self.words.extend(words)
    }
}

/// The numbers that are left of the input.
#[derive(Drop)]
pub struct Input {
    numbers: Words,
    read: usize,
}

impl Model for Input {
    ghost use Rattle.std.specs.Prelude.{List, ℤ, drop};

    ghost Value = { List ℤ };

    ghost view = { λ i. drop i.read i.numbers };
}

impl Input {
    pub fn new(numbers: Words) -> Input
        ensures { result ≡ numbers }
    {
        Input { numbers, read: 0 }
    }

    /// The next number.
    pub fn next(&self) -> Option<i64>
        ensures { MatchOption result (self.now ≡ []) (λ number. self.now ≡ number ∷ drop 1 self.now) }
    {
        self.numbers.get(self.read)
    }

    /// The next number is read.
    pub fn skip(&mut self)
        requires { 0 < length self.old }
        ensures { self.new ≡ drop 1 self.old }
    {
        let _there = self.numbers.as_slice();
        self.read += 1;
    }
}

/// A frame between two instructions.
#[derive(Drop)]
pub struct Running {
    pub code: CodeKind,
    pub place: usize,
    pub words: WordStack,
    pub flows: Stack<Flow>,
    pub variables: Variables,
    pub callers: Stack<Caller>,
    pub state: Words,
    pub input: Input,
    pub lines: Bytes,
    pub replied: bool,
    pub alloc: Global,
}

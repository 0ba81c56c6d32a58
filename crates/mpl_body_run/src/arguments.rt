ghost use Rattle.std.specs.Prelude.{◌≡◌, [], ◌∷◌, drop, map, List, IfOk, MatchOption, OnErr, OnOk};
ghost use Rattle.mpl_value.specs.CallAnswers.{any_unknown, leftmost_trap};
ghost use Rattle.mpl_body_code.specs.Machine.{Item, Machine, Next, arg_of};
ghost use Rattle.mpl_body_code.specs.Steps.{answers, onward, top_of};
ghost use Rattle.mpl_body_run.specs.SeenItems.{arg_seen, item_seen};

use crate::stack::{Holds, Slots, Stack};
use crate::word_list::owned;
use mpl_value::{Arg, Args, NoMemory, Trap, Words};
use std::alloc::Global;
use std::marker::Model;

/// The arguments of a call, the first the newest, and what they decide.
#[derive(Drop)]
pub struct Arguments {
    slots: Slots,
    is_unknown: bool,
    trap: Option<Trap>,
}

impl Model for Arguments {
    ghost use Rattle.std.specs.Prelude.{◌≡◌, List};
    ghost use Rattle.mpl_value.specs.CallAnswers.{any_unknown, leftmost_trap};
    ghost use Rattle.mpl_value.specs.declared.body.Arg.{Arg};

    ghost Value = { List Arg };

    ghost view = { λ a. a.slots };

    ghost invariant = { λ a. (a.is_unknown ≡ any_unknown a.slots) × (a.trap ≡ leftmost_trap a.slots) };
}

impl Arguments {
    /// No argument, which takes no memory.
    pub fn new(alloc: Global) -> Arguments
        ensures { result ≡ [] }
    {
        Arguments {
            slots: Slots::new(alloc),
            is_unknown: false,
            trap: None,
        }
    }

    /// One more, to the left of the others.
    pub fn add(&mut self, item: Holds) -> Result<(), NoMemory>
        ensures { OnOk result (self.new ≡ arg_seen item ∷ self.old) }
    {
        match item {
            Holds::Word(word, is_bool) => self.slots.push(Holds::Word(word, is_bool)),
            Holds::Words(words, is_bool) => self.slots.push(Holds::Words(words, is_bool)),
            Holds::Trapped(trap) => {
                self.slots.push(Holds::Trapped(trap))?;
                self.trap = Some(trap);
                Ok(())
            }
            Holds::Unknown => {
                self.slots.push(Holds::Unknown)?;
                self.is_unknown = true;
                Ok(())
            }
        }
    }

    /// What answers the call in place of its body or its reply.
    pub fn decided(&self) -> Option<Holds>
        ensures { (x : Machine) (known : Next) (below : List Item) → MatchOption result (answers x self.now known below ≡ known) (λ item. answers x self.now known below ≡ onward x (item_seen item ∷ below)) }
    {
        if self.is_unknown {
            return Some(Holds::Unknown);
        }
        match self.trap {
            Some(trap) => Some(Holds::Trapped(trap)),
            None => None,
        }
    }

    pub fn into_slots(self) -> Slots
        ensures { result ≡ self }
    {
        self.slots
    }
}

/// So many items from the top, as arguments.
#[tactic(auto, using(crate::proofs::TakenArguments::one_taken, crate::proofs::TakenArguments::none_left, crate::proofs::TakenArguments::none_dropped))]
pub fn take_arguments(alloc: Global, stack: &mut Stack, count: usize) -> Result<Arguments, NoMemory>
    ensures taken { IfOk result (λ arguments. arguments ≡ map arg_of (top_of count stack.old)) }
    ensures below { OnOk result (stack.new ≡ drop count stack.old) }
{
    let mut arguments = Arguments::new(alloc);
    let mut left = count;
    while left > 0 {
        left -= 1;
        if let Some(item) = stack.pop() {
            arguments.add(item)?;
        }
    }
    Ok(arguments)
}

/// The arguments of a call that is written down.
#[tactic(auto, using(crate::proofs::TakenArguments::one_listed))]
pub fn listed(alloc: Global, slots: Slots) -> Result<Args, NoMemory>
    ensures { IfOk result (λ args. args ≡ slots) }
{
    let mut slots = slots;
    let mut args = Args::new(alloc);
    while let Some(item) = slots.pop() {
        args.push(passed(alloc, item)?)?;
    }
    Ok(args)
}

fn passed(alloc: Global, item: Holds) -> Result<Arg, NoMemory>
    ensures { IfOk result (λ arg. arg ≡ arg_seen item) }
{
    match item {
        Holds::Word(word, _) => {
            let mut words = Words::new(alloc);
            words.push(word)?;
            Ok(Arg::Know(words))
        }
        Holds::Words(words, _) => Ok(Arg::Know(owned(words)?)),
        Holds::Trapped(trap) => Ok(Arg::Trapped(trap)),
        Holds::Unknown => Ok(Arg::Unknown),
    }
}

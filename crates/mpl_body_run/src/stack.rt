ghost use Rattle.std.specs.Prelude.{◌≡◌, [], ◌∷◌, ◌++◌, ◌-◌, drop, length, MatchOption, OnErr, OnOk};
ghost use Rattle.mpl_value.specs.declared.body.Arg.TheVariants.{Unknown};
ghost use Rattle.mpl_body_code.specs.Machine.{held, put_held};
ghost use Rattle.mpl_body_run.specs.SeenItems.{arg_seen, item_seen};

use mpl_value::{NoMemory, Trap, Words};
use std::alloc::Global;
use std::marker::Model;
use std::mem;
use std::rc::Rc;

/// A value, which may be a `bool`, or what is passed on in its place.
#[derive(Drop)]
pub enum Holds {
    Word(i64, bool),
    /// Words that others may share.
    Words(Rc<Words>, bool),
    Trapped(Trap),
    /// A result that isn't known.
    Unknown,
}

/// What lies on a frame's stack: so many of the items, behind which there is room.
#[derive(Drop)]
pub struct Stack {
    items: Vec<Holds>,
    count: usize,
}

impl Model for Stack {
    ghost use Rattle.std.specs.Prelude.{◌≤◌, List, length, take};
    ghost use Rattle.mpl_body_code.specs.Machine.{Item};
    ghost use Rattle.mpl_body_run.specs.SeenItems.{stack_seen};

    ghost Value = { List Item };

    ghost view = { λ s. stack_seen (take s.count s.items.items) };

    ghost invariant = { λ s. s.count ≤ length s.items.items };
}

impl Stack {
    /// The empty stack, which takes no memory.
    pub fn new(alloc: Global) -> Stack
        ensures { result ≡ [] }
    {
        Stack {
            items: Vec::new(alloc),
            count: 0,
        }
    }

    #[inline(always)]
    #[tactic(auto, using(crate::proofs::StackLists::pushed_within, crate::proofs::StackLists::pushed_past, crate::proofs::StackLists::room_within, crate::proofs::StackLists::room_past))]
    pub fn push(&mut self, item: Holds) -> Result<(), NoMemory>
        ensures { OnOk result (self.new ≡ item_seen item ∷ self.old) }
    {
        if self.count < self.items.len() {
            self.items[self.count] = item;
            self.count += 1;
            return Ok(());
        }
        add(&mut self.items, item)?;
        self.count += 1;
        Ok(())
    }

    #[inline(always)]
    #[tactic(auto, using(crate::proofs::StackLists::popped, crate::proofs::StackLists::none_lies))]
    pub fn pop(&mut self) -> Option<Holds>
        ensures { MatchOption result ((self.old ≡ []) × (self.new ≡ [])) (λ item. self.old ≡ item_seen item ∷ self.new) }
    {
        if self.count == 0 {
            return None;
        }
        self.count -= 1;
        Some(mem::replace(&mut self.items[self.count], Holds::Unknown))
    }
}

/// One more item behind the others, for which room may have to be made.
#[inline(never)]
fn add(items: &mut Vec<Holds>, item: Holds) -> Result<(), NoMemory>
    ensures ok { OnOk result (items.new.items ≡ items.old.items ++ item ∷ []) }
    ensures err { OnErr result (items.new.items ≡ items.old.items) }
{
    items.push(item)?;
    Ok(())
}

/// What a frame's variables hold.
#[derive(Drop)]
pub struct Slots {
    items: Vec<Holds>,
}

impl Model for Slots {
    ghost use Rattle.std.specs.Prelude.{List};
    ghost use Rattle.mpl_value.specs.declared.body.Arg.{Arg};
    ghost use Rattle.mpl_body_run.specs.SeenItems.{slots_seen};

    ghost Value = { List Arg };

    ghost view = { λ s. slots_seen s.items.items };
}

impl Slots {
    /// No variable, which takes no memory.
    pub fn new(alloc: Global) -> Slots
        ensures { result ≡ [] }
    {
        Slots {
            items: Vec::new(alloc),
        }
    }

    /// A new variable.
    pub fn push(&mut self, item: Holds) -> Result<(), NoMemory>
        ensures ok { OnOk result (self.new ≡ arg_seen item ∷ self.old) }
        ensures err { OnErr result (self.new ≡ self.old) }
    {
        self.items.push(item)?;
        Ok(())
    }

    /// The newest goes.
    pub fn pop(&mut self) -> Option<Holds>
        ensures { MatchOption result ((self.old ≡ []) × (self.new ≡ [])) (λ item. self.old ≡ arg_seen item ∷ self.new) }
    {
        self.items.pop()
    }

    /// What a variable holds, by its number.
    #[tactic(auto, using(crate::proofs::SlotLists::held_seen))]
    #[inline(always)]
    pub fn get(&self, number: usize) -> Option<&Holds>
        ensures { MatchOption result (held number self.now ≡ Unknown) (λ item. held number self.now ≡ arg_seen item.now) }
    {
        match self.items.get(number) {
            Some(item) => Some(item),
            None => None,
        }
    }

    /// What a variable holds is taken out, and isn't known until something is put there.
    #[inline(always)]
    #[tactic(auto, using(crate::proofs::SlotLists::held_within, crate::proofs::SlotLists::held_past, crate::proofs::SlotLists::put_seen))]
    pub fn take(&mut self, number: usize) -> Option<Holds>
        ensures { MatchOption result ((held number self.old ≡ Unknown) × (self.new ≡ self.old)) (λ item. (held number self.old ≡ arg_seen item) × (self.new ≡ put_held number Unknown self.old)) }
    {
        if number < self.items.len() {
            Some(mem::replace(&mut self.items[number], Holds::Unknown))
        } else {
            None
        }
    }

    /// A variable holds something else.
    #[tactic(auto, using(crate::proofs::SlotLists::put_seen, crate::proofs::SlotLists::put_past))]
    #[inline(always)]
    pub fn put(&mut self, number: usize, item: Holds)
        ensures { self.new ≡ put_held number (arg_seen item) self.old }
    {
        if number < self.items.len() {
            self.items[number] = item;
        }
    }

    /// Only the oldest stay.
    #[tactic(auto, using(crate::proofs::SlotLists::leave_seen))]
    pub fn leave(&mut self, count: usize)
        ensures { self.new ≡ drop (length self.old - count) self.old }
    {
        self.items.truncate(count);
    }
}

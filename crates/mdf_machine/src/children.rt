ghost use Rattle.std.specs.Prelude.{◌≡◌, [], ◌∷◌, ◌++◌, ◌-◌, length, take, slice_get, OnOk, OnErr};
ghost use Rattle.mdf_machine.specs.Internal.Children.{child_in};

use mpl_value::NoMemory;
use std::alloc::Global;
use std::marker::Model;

/// The actors of an actor's calls, in their order.
#[derive(Drop)]
pub struct Children {
    actors: Vec<u32>,
}

impl Model for Children {
    ghost use Rattle.std.specs.Prelude.{List, ℕ};

    ghost Value = { List ℕ };

    ghost view = { λ c. c.actors.items };
}

impl Children {
    /// No call. It takes no memory.
    pub fn new(alloc: Global) -> Children
        ensures { result ≡ [] }
    {
        Children {
            actors: Vec::new(alloc),
        }
    }

    /// The actor of one more call.
    pub fn push(&mut self, actor: u32) -> Result<(), NoMemory>
        ensures ok { OnOk result (self.new ≡ self.old ++ actor ∷ []) }
        ensures err { OnErr result (self.new ≡ self.old) }
    {
        self.actors.push(actor)?;
        Ok(())
    }

    /// Takes the last call back.
    pub fn pop(&mut self)
        ensures { self.new ≡ take (length self.old - 1) self.old }
    {
        self.actors.pop();
    }

    /// The actor of a call, by its number from 1.
    pub fn of_call(&self, call: u32) -> Option<u32>
        ensures { result ≡ child_in self.now call }
    {
        let place = (call as usize).checked_sub(1)?;
        self.actors.get(place).copied()
    }
}

ghost use Rattle.std.specs.Prelude.{◌≡◌, ◌+◌, ◌-◌, [], ◌∷◌, ◌++◌, length, take, if◌then◌else◌, OnOk, OnErr};

use crate::consumer::Consumer;
use mpl_value::NoMemory;
use std::alloc::Global;
use std::marker::Model;

/// Who waits for one result, the first of them first.
#[derive(Debug, Drop)]
pub struct Consumers {
    items: Vec<Consumer>,
}

impl Model for Consumers {
    ghost use Rattle.std.specs.Prelude.{List};
    ghost use Rattle.std.specs.Coded.{coded_list};
    ghost use Rattle.mdf_future.specs.declared.consumer.Consumer.{Consumer as Value_};
    ghost use Rattle.mdf_future.specs.contracts.consumer.Consumer as consumer_code;

    ghost Value = { List Value_ };

    ghost coded = { coded_list consumer_code.the_row.coded };

    ghost view = { λ c. c.items.items };
}

impl Consumers {
    /// None, which takes no memory.
    pub fn new(alloc: Global) -> Consumers
        ensures { result ≡ [] }
    {
        Consumers {
            items: Vec::new(alloc),
        }
    }

    /// One more, behind the others.
    pub fn push(&mut self, consumer: Consumer) -> Result<(), NoMemory>
        ensures ok { OnOk result (self.new ≡ self.old ++ consumer ∷ []) }
        ensures err { OnErr result (self.new ≡ self.old) }
    {
        self.items.push(consumer)?;
        Ok(())
    }

    /// Takes the last one out, and answers whether there was one.
    pub fn pop(&mut self) -> bool
        ensures rest { self.new ≡ take (length self.old - 1) self.old }
        ensures one { length self.new + (if result then 1 else 0) ≡ length self.old }
    {
        self.items.pop().is_some()
    }

    pub fn len(&self) -> usize
        ensures { result ≡ length self.now }
    {
        self.items.len()
    }

    pub fn as_slice(&self) -> &[Consumer]
        ensures { result.now ≡ self.now }
    {
        self.items.as_slice()
    }
}

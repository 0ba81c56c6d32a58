ghost use Rattle.std.specs.Prelude.{◌≡◌, None, OnOk, OnErr};
ghost use Rattle.std.specs.Option.{option_copied};
ghost use Rattle.std.specs.Ordering.{nat_cmp};
ghost use Rattle.std.specs.FinMap as map;

use crate::known::Known;
use crate::memory::NoMemory;
use std::alloc::Global;
use std::collections::BTreeMap;
use std::marker::Model;

/// The replies to the calls of a body on persistent objects, by the numbers of the calls.
#[derive(Drop)]
pub struct Replies {
    known: BTreeMap<u32, Known>,
}

impl Model for Replies {
    ghost use Rattle.std.specs.Ordering.{nat_cmp};
    ghost use Rattle.std.specs.FinMap as map;
    ghost use Rattle.std.specs.Coded.{coded_ℕ};
    ghost use Rattle.mpl_value.specs.declared.known.Known.{Known};

    ghost Value = { map.FinMap nat_cmp Known };

    ghost use Rattle.mpl_value.specs.contracts.known.Known as known_code;

    ghost coded = { map.code coded_ℕ known_code.the_row.coded };

    ghost view = { λ r. map.from_entries r.known.entries };
}

impl Replies {
    /// No reply. It takes no memory.
    pub fn new(alloc: Global) -> Replies
        ensures { result ≡ map.empty }
    {
        Replies {
            known: BTreeMap::new(alloc),
        }
    }

    /// The reply to one more call.
    pub fn set(&mut self, call: u32, known: Known) -> Result<(), NoMemory>
        requires { map.get self.old call ≡ None }
        ensures ok { OnOk result (self.new ≡ map.insert self.old call known) }
        ensures err { OnErr result (self.new ≡ self.old) }
    {
        self.known.insert(call, known)?;
        Ok(())
    }

    pub fn get(&self, call: u32) -> Option<&Known>
        ensures { option_copied result ≡ map.get self.now call }
    {
        self.known.get(&call)
    }
}

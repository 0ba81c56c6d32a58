ghost use Rattle.std.specs.Prelude.{◌≡◌, ◌<◌, ◌≤◌, ◌+◌, ◌-◌, ◌++◌, ◌∷◌, [], length, slice_set, Some, None, OnOk, OnErr, IfSome};
ghost use Rattle.std.specs.Option.{option_copied};
ghost use Rattle.mdf_vm.specs.Results.{knows_of};
ghost use Rattle.mpl_value.specs.CallAnswers.{arg_of_reply};

use mpl_value::{Known, NoMemory};
use std::alloc::Global;
use std::marker::Model;

/// The results of a frame's calls, in the order in which the calls were made.
#[derive(Drop)]
pub struct Results {
    known: Vec<Option<Known>>,
}

/// What a frame runs in beside its image: the word of its object, and the results of its calls.
#[derive(Drop)]
pub struct Setting {
    pub object: i64,
    pub results: Results,
}

impl Model for Results {
    ghost use Rattle.std.specs.Prelude.{List};
    ghost use Rattle.std.specs.declared.option.Option.{Option};
    ghost use Rattle.std.specs.Coded.{coded_list, coded_option};
    ghost use Rattle.mpl_value.specs.declared.known.Known.{Known};
    ghost use Rattle.mpl_value.specs.contracts.known.Known as known_code;

    ghost Value = { List (Option Known) };

    ghost coded = { coded_list (coded_option known_code.the_row.coded) };

    ghost view = { λ r. r.known.items };
}

impl Results {
    pub fn new(alloc: Global) -> Results
        ensures { result ≡ [] }
    {
        Results {
            known: Vec::new(alloc),
        }
    }

    pub fn allocator(&self) -> Global {
        *self.known.allocator()
    }

    pub fn len(&self) -> usize
        ensures { result ≡ length self.now }
    {
        self.known.len()
    }

    /// One more result, which isn't known.
    pub fn add(&mut self) -> Result<(), NoMemory>
        ensures ok { OnOk result (self.new ≡ self.old ++ None ∷ []) }
        ensures err { OnErr result (self.new ≡ self.old) }
    {
        self.known.push(None)?;
        Ok(())
    }

    pub fn learn(&mut self, place: usize, known: Known)
        requires { place < length self.old }
        ensures { self.new ≡ slice_set self.old place (Some known) }
    {
        self.known[place] = Some(known);
    }

    /// What is known of a result, by its number.
    pub fn get(&self, number: u32) -> Option<&Known>
        ensures { arg_of_reply (option_copied result) ≡ knows_of self.now number }
    {
        let place = (number as usize).checked_sub(1)?;
        self.known.get(place)?.as_ref()
    }
}

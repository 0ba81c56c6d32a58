ghost use Rattle.std.specs.Prelude.{◌≡◌, Some, None, OnErr, IfOk, replicate, slice_get, slice_set, slice_index_or};
ghost use Rattle.std.specs.Option.{option_copied};
ghost use Rattle.mdf_match.specs.Ports.{missing_in, ticket_of};

use crate::datum::Datum;
use crate::token::Ticket;
use mpl_value::NoMemory;
use std::alloc::Global;
use std::marker::Model;

/// The ports of one actor, in their order.
#[derive(Drop)]
pub struct Ports {
    known: Vec<Option<Datum>>,
    missing: u32,
}

impl Model for Ports {
    ghost use Rattle.std.specs.Prelude.{◌≡◌, List};
    ghost use Rattle.std.specs.declared.option.Option.{Option};
    ghost use Rattle.std.specs.Coded.{coded_list, coded_option};
    ghost use Rattle.mpl_value.specs.declared.known.Known.{Known};
    ghost use Rattle.mpl_value.specs.contracts.known.Known as known_code;

    ghost Value = { List (Option Known) };

    ghost coded = { coded_list (coded_option known_code.the_row.coded) };

    ghost use Rattle.mdf_match.specs.Ports.{missing_in};

    ghost view = { λ p. p.known.items };

    ghost invariant = { λ p. p.missing ≡ missing_in p.known.items };
}

impl Ports {
    /// So many empty ports.
    pub fn new(alloc: Global, count: u32) -> Result<Ports, NoMemory>
        ensures { IfOk result (λ p. p ≡ replicate count None) }
    {
        let mut known = Vec::with_capacity(alloc, count as usize)?;
        for _port in 0..count {
            known.push(None)?;
        }
        Ok(Ports {
            known,
            missing: count,
        })
    }

    /// How many ports are empty.
    pub fn missing(&self) -> u32
        ensures { result ≡ missing_in self.now }
    {
        self.missing
    }

    /// The ticket of the actor whose ports these are, if none is empty.
    pub fn ticket(&self, actor: u32) -> Option<Ticket>
        ensures { result ≡ ticket_of self.now actor }
    {
        if self.missing == 0 {
            Some(Ticket { actor })
        } else {
            None
        }
    }

    pub fn get(&self, port: u32) -> Option<&Datum>
        ensures { option_copied result ≡ slice_index_or self.now port None }
    {
        self.known.get(port as usize)?.as_ref()
    }

    pub fn fill(&mut self, port: u32, datum: Datum)
        requires { slice_get self.old port ≡ Some None }
        ensures { self.new ≡ slice_set self.old port (Some datum) }
    {
        self.known[port as usize] = Some(datum);
        self.missing -= 1;
    }
}

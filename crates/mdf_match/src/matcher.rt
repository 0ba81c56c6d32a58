ghost use Rattle.std.specs.Prelude.{◌≡◌, ◌≤◌, ◌<◌, Some, None, IsSome, OnOk, OnErr, replicate, length, slice_get};
ghost use Rattle.std.specs.Option.{option_map, option_copied};
ghost use Rattle.std.specs.FinMap as map;
ghost use Rattle.mdf_match.specs.Data.{HasFewWords, words_of, seen_of};
ghost use Rattle.mdf_match.specs.Ports.{missing_in, port_at, known_at, known_words, filled, filled_row, ticket_of};

use crate::datum::{Datum, Seen};
use crate::ports::Ports;
use crate::token::{Tag, Ticket, Token};
use mpl_value::NoMemory;
use std::alloc::Global;
use std::collections::BTreeMap;
use std::marker::Model;

/// The ports of the actors that wait for their arguments, seen as a map from each open actor to what has come to its
/// ports.
#[derive(Drop)]
pub struct Matcher {
    actors: BTreeMap<u32, Ports>,
    alloc: Global,
}

impl Model for Matcher {
    ghost use Rattle.std.specs.Prelude.{List};
    ghost use Rattle.std.specs.declared.option.Option.{Option};
    ghost use Rattle.std.specs.Ordering.{nat_cmp};
    ghost use Rattle.std.specs.FinMap as map;
    ghost use Rattle.std.specs.Coded.{coded_ℕ, coded_list, coded_option};
    ghost use Rattle.mpl_value.specs.declared.known.Known.{Known};
    ghost use Rattle.mpl_value.specs.contracts.known.Known as known_code;

    ghost Value = { map.FinMap nat_cmp (List (Option Known)) };

    ghost coded = { map.code coded_ℕ (coded_list (coded_option known_code.the_row.coded)) };

    ghost view = { λ m. map.from_entries m.actors.entries };
}

impl Matcher {
    /// No actor. It takes no memory.
    pub fn new(alloc: Global) -> Matcher
        ensures { result ≡ map.empty }
    {
        Matcher {
            actors: BTreeMap::new(alloc),
            alloc,
        }
    }

    /// Empty ports of one more actor.
    pub fn open(&mut self, actor: u32, ports: u32) -> Result<(), NoMemory>
        requires new { map.get self.old actor ≡ None }
        requires few { ports ≤ 16 }
        ensures ok { OnOk result (self.new ≡ map.insert self.old actor (replicate ports None)) }
        ensures err { OnErr result (self.new ≡ self.old) }
    {
        let ports = Ports::new(self.alloc, ports)?;
        self.actors.insert(actor, ports)?;
        Ok(())
    }

    /// Puts a token at its port, and answers a ticket exactly where that was the last missing port of its actor.
    pub fn arrive(&mut self, token: Token) -> Option<Ticket>
        requires empty { port_at self.old token.tag ≡ Some None }
        requires few { HasFewWords token.known }
        ensures filled { self.new ≡ filled self.old token }
        ensures ticket { result ≡ ticket_of (filled_row self.old token) token.tag.actor }
    {
        let Token { tag, known } = token;
        let ports = self.actors.get_mut(&tag.actor)?;
        ports.fill(tag.port, Datum::new(known));
        ports.ticket(tag.actor)
    }

    /// How many ports of an actor are still to be filled.
    pub fn missing(&self, actor: u32) -> Option<u32>
        ensures { result ≡ option_map missing_in (map.get self.now actor) }
    {
        Some(self.ports(actor)?.missing())
    }

    /// What has come to a port, without its words.
    pub fn seen(&self, tag: Tag) -> Option<Seen>
        ensures { result ≡ option_map seen_of (known_at self.now tag) }
    {
        Some(self.datum(tag)?.seen())
    }

    /// One of the words that have come to a port.
    pub fn word(&self, tag: Tag, at: u32) -> i64
        requires { at < length (known_words self.now tag) }
        ensures { slice_get (known_words self.now tag) at ≡ Some result }
    {
        self.datum(tag).unwrap().word(at)
    }

    /// Takes an actor and its ports out.
    pub fn close(&mut self, actor: u32)
        requires { IsSome (map.get self.old actor) }
        ensures { self.new ≡ map.remove self.old actor }
    {
        self.actors.remove(&actor);
    }

    fn datum(&self, tag: Tag) -> Option<&Datum>
        ensures { option_copied result ≡ known_at self.now tag }
    {
        self.ports(tag.actor)?.get(tag.port)
    }

    fn ports(&self, actor: u32) -> Option<&Ports>
        ensures { option_copied result ≡ map.get self.now actor }
    {
        self.actors.get(&actor)
    }
}

ghost use Rattle.std.specs.Prelude.{◌≡◌, ◌+◌, ◌<◌, ◌≤◌, Some, None, IsTrue, IsSome, OnOk, OnErr, [], length, slice_get, remove};
ghost use Rattle.std.specs.Option.{option_map, option_map_or, option_copied};
ghost use Rattle.std.specs.FinMap as map;
ghost use Rattle.mdf_match.specs.Data.{HasFewWords, seen_of};
ghost use Rattle.mdf_future.specs.Results.{ResultTable, state_of, known_of, known_at, known_words, may_give, GivesFewWords, opened, waited, given, settled, forwarded};
ghost use Rattle.mdf_future.specs.Openings.{HaveResults, opened_with, opened_from};
ghost use Rattle.mdf_future.specs.Internal.Newest.{without_newest};

use crate::consumer::{Consumer, Due, deliver};
use crate::consumers::Consumers;
use crate::future::{Fate, Future, Give, ResultState};
use mdf_match::{Datum, Seen, Tag};
use mpl_value::NoMemory;
use std::alloc::Global;
use std::collections::{BTreeMap, VecDeque};
use std::marker::Model;
use std::mem;

/// The results of actors by their serial numbers, and the consumers that are due.
#[derive(Drop)]
pub struct Futures {
    results: BTreeMap<u32, Future>,
    /// It has room for every consumer that waits, so that a result can become known without memory.
    due: VecDeque<Due>,
    /// How many consumers wait.
    waiting: usize,
    alloc: Global,
}

impl Model for Futures {
    ghost use Rattle.mdf_future.specs.Results.{ResultTable, table_code};
    ghost use Rattle.std.specs.FinMap as map;

    ghost Value = { ResultTable };

    ghost coded = { table_code };

    ghost use Rattle.std.specs.VecDeque.{deque_len, deque_capacity};
    ghost use Rattle.mdf_future.specs.Room.{HasRoom};

    ghost view = { λ f. record { results = map.from_entries f.results.entries; due = f.due.items } };

    ghost invariant = { λ f. HasRoom f.results.entries f.waiting (deque_len f.due) (deque_capacity f.due) };
}

impl Futures {
    /// No result. It takes no memory.
    pub fn new(alloc: Global) -> Futures
        ensures { result ≡ record { results = map.empty; due = [] } }
    {
        Futures {
            results: BTreeMap::new(alloc),
            due: VecDeque::new(alloc),
            waiting: 0,
            alloc,
        }
    }

    /// The open result of one more actor.
    pub fn open(&mut self, actor: u32) -> Result<(), NoMemory>
        requires { map.get self.old.results actor ≡ None }
        ensures ok { OnOk result (self.new ≡ opened self.old actor) }
        ensures err { OnErr result (self.new ≡ self.old) }
    {
        let future = Future {
            fate: Fate::Open,
            consumers: Consumers::new(self.alloc),
        };
        self.results.insert(actor, future)?;
        Ok(())
    }

    /// Adds a consumer of a result, behind those that it has. Of a result that is known it is due at once.
    pub fn wait(&mut self, on: u32, consumer: Consumer) -> Result<(), NoMemory>
        requires { IsSome (map.get self.old.results on) }
        ensures ok { OnOk result (self.new ≡ waited self.old on consumer) }
        ensures err { OnErr result (self.new ≡ self.old) }
    {
        let places = self.waiting.checked_add(1).ok_or(NoMemory)?;
        self.due.reserve(places)?;
        let Some(future) = self.results.get_mut(&on) else {
            unreachable!()
        };
        if future.fate.is_known() {
            deliver(&mut self.due, on, [consumer].as_slice());
        } else {
            future.join(consumer)?;
            self.waiting = places;
        }
        Ok(())
    }

    /// The open result of one more actor, each port of which waits for the result that is passed there, if any. Of a
    /// result that is known the port is due at once.
    pub fn open_with(&mut self, actor: u32, ports: &[Option<u32>]) -> Result<(), NoMemory>
        requires new { map.get self.old.results actor ≡ None }
        requires there { HaveResults self.old ports.now }
        requires few { length ports.now ≤ 16 }
        ensures ok { OnOk result (self.new ≡ opened_with self.old actor ports.now) }
        ensures err { OnErr result (self.new ≡ self.old) }
    {
        self.open_from(actor, 0, ports)
    }

    /// Settles a result, or forwards it. The consumers of a result that becomes known are due from then on, in the
    /// order in which they were added and behind all others; a parked actor is never due.
    pub fn give(&mut self, actor: u32, give: Give)
        requires allowed { IsTrue (may_give self.old actor give) }
        requires few { GivesFewWords give }
        ensures { self.new ≡ given self.old actor give }
    {
        match give {
            Give::Known(known) => self.settle(actor, Datum::new(known)),
            Give::Result(other) => self.forward(actor, other),
        }
    }

    pub fn state(&self, actor: u32) -> ResultState
        requires { IsSome (map.get self.now.results actor) }
        ensures { option_map (λ f. state_of f.fate) (map.get self.now.results actor) ≡ Some result }
    {
        self.future(actor).unwrap().fate.state()
    }

    /// How many consumers are due.
    pub fn due_len(&self) -> usize
        ensures { result ≡ length self.now.due }
    {
        self.due.len()
    }

    /// The due consumer at a place, the oldest being at 0.
    pub fn due_at(&self, at: usize) -> Option<Due>
        ensures { result ≡ slice_get self.now.due at }
    {
        self.due.get(at).copied()
    }

    /// Takes the due consumer at a place out.
    pub fn take_at(&mut self, at: usize) -> Option<Due>
        ensures taken { result ≡ slice_get self.old.due at }
        ensures rest { self.new ≡ record self.old { due = remove self.old.due at } }
    {
        self.due.remove(at)
    }

    /// A known result, without its words.
    pub fn seen(&self, actor: u32) -> Option<Seen>
        ensures { result ≡ option_map seen_of (known_at self.now actor) }
    {
        Some(self.datum(actor)?.seen())
    }

    /// One of the words of a known result.
    pub fn word(&self, actor: u32, at: u32) -> i64
        requires { at < length (known_words self.now actor) }
        ensures { slice_get (known_words self.now actor) at ≡ Some result }
    {
        self.datum(actor).unwrap().word(at)
    }

    /// The ports from this one on.
    fn open_from(&mut self, actor: u32, port: u32, ports: &[Option<u32>]) -> Result<(), NoMemory>
        requires new { map.get self.old.results actor ≡ None }
        requires there { HaveResults self.old ports.now }
        requires few { port + length ports.now ≤ 16 }
        ensures ok { OnOk result (self.new ≡ opened_from self.old actor port ports.now) }
        ensures err { OnErr result (self.new ≡ self.old) }
    {
        let Some((passed, others)) = ports.split_first() else {
            return self.open(actor);
        };
        let Some(on) = *passed else {
            return self.open_from(actor, port + 1, others);
        };
        self.wait(on, Consumer::Port(Tag { actor, port }))?;
        if let Err(why) = self.open_from(actor, port + 1, others) {
            self.take_back(on);
            return Err(why);
        }
        Ok(())
    }

    /// Takes the newest consumer of a result out again, as if it hadn't been added.
    fn take_back(&mut self, on: u32)
        requires { IsSome (map.get self.old.results on) }
        ensures { self.new ≡ without_newest self.old on }
    {
        let Some(future) = self.results.get_mut(&on) else {
            unreachable!()
        };
        if future.fate.is_known() {
            self.due.pop_back();
        } else if future.leave() {
            self.waiting -= 1;
        }
    }

    fn settle(&mut self, actor: u32, datum: Datum)
        requires { IsSome (map.get self.old.results actor) }
        ensures { self.new ≡ settled self.old actor datum }
    {
        let Some(future) = self.results.get_mut(&actor) else {
            unreachable!()
        };
        let settled = Future {
            fate: Fate::Known(datum),
            consumers: Consumers::new(self.alloc),
        };
        let open = mem::replace(future, settled);
        self.waiting -= open.consumers.len();
        deliver(&mut self.due, actor, open.consumers.as_slice());
    }

    fn forward(&mut self, actor: u32, other: u32)
        requires { IsSome (map.get self.old.results actor) }
        ensures { self.new ≡ forwarded self.old actor other }
    {
        let Some(future) = self.results.get_mut(&actor) else {
            unreachable!()
        };
        future.forward(other);
    }

    fn datum(&self, actor: u32) -> Option<&Datum>
        ensures { option_copied result ≡ known_at self.now actor }
    {
        self.future(actor)?.fate.known()
    }

    fn future(&self, actor: u32) -> Option<&Future>
        ensures { option_copied result ≡ map.get self.now.results actor }
    {
        self.results.get(&actor)
    }
}

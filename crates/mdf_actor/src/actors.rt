ghost use Rattle.std.specs.Prelude.{◌≡◌, ◌-◌, ◌^◌, ◌<◌, Some, IfOk, IsSomeAnd, OnOk, OnErr, [], ◌∷◌, ◌++◌, false, length, slice_get, slice_set, take, List};
ghost use Rattle.mdf_actor.specs.Statuses.{is_over};

use crate::node::{Node, Place, change};
use crate::status::ActorStatus;
use mpl_value::NoMemory;
use slab::Slab;
use std::alloc::Global;
use std::marker::Model;

/// The actors by their serial numbers, seen as the list of their statuses.
#[derive(Drop)]
pub struct Actors {
    nodes: Slab<Node>,
    places: Vec<Place>,
}

impl Model for Actors {
    ghost use Rattle.std.specs.Prelude.{List, map};
    ghost use Rattle.std.specs.Coded.{coded_list};
    ghost use Rattle.mdf_actor.specs.declared.status.ActorStatus.{ActorStatus};
    ghost use Rattle.mdf_actor.specs.contracts.status.ActorStatus as status_code;

    ghost Value = { List ActorStatus };

    ghost coded = { coded_list status_code.the_row.coded };

    ghost use Rattle.mdf_actor.specs.Nodes.{status_at, IsTied};

    ghost view = { λ a. map (status_at a.nodes) a.places.items };

    ghost invariant = { λ a. IsTied a.nodes a.places.items };
}

impl Actors {
    /// No actor. It takes no memory.
    pub fn new(alloc: Global) -> Actors
        ensures { result ≡ [] }
    {
        Actors {
            nodes: Slab::new(alloc),
            places: Vec::new(alloc),
        }
    }

    /// One more actor, which waits for so many arguments, under the next serial number.
    pub fn add(&mut self, missing: u32) -> Result<u32, NoMemory>
        requires { length self.old < 2 ^ 32 - 1 }
        ensures serial { IfOk result (λ actor. actor ≡ length self.old) }
        ensures ok { OnOk result (self.new ≡ self.old ++ ActorStatus.Waiting missing ∷ []) }
        ensures err { OnErr result (self.new ≡ self.old) }
    {
        let actor = self.places.len() as u32;
        self.places.reserve(1)?;
        let key = self.nodes.insert(Node {
            actor,
            status: ActorStatus::Waiting(missing),
        })?;
        self.places.push_reserved(Place::Node(key));
        Ok(actor)
    }

    /// Takes the newest actor out again, as if it hadn't been added.
    pub fn withdraw(&mut self)
        requires { 0 < length self.old }
        ensures rest { self.new ≡ take (length self.old - 1) self.old }

        // The same, where it is known what was added.
        ensures undone { (kept : List ActorStatus) (newest : ActorStatus) → self.old ≡ kept ++ newest ∷ [] → self.new ≡ kept }
    {
        let Some(place) = self.places.pop() else {
            unreachable!()
        };
        if let Place::Node(key) = place {
            self.nodes.remove(key);
        }
    }

    pub fn status(&self, actor: u32) -> ActorStatus
        requires { actor < length self.now }
        ensures { slice_get self.now actor ≡ Some result }
    {
        match self.places[actor as usize] {
            Place::Node(key) => self.nodes.get(key).unwrap().status,
            Place::Ended => ActorStatus::Ended,
            Place::Poisoned => ActorStatus::Poisoned,
        }
    }

    /// Gives an actor that isn't over another status.
    pub fn set(&mut self, actor: u32, status: ActorStatus)
        requires { IsSomeAnd (slice_get self.old actor) (λ kept. is_over kept ≡ false) }
        ensures { self.new ≡ slice_set self.old actor status }
    {
        let at = actor as usize;
        if let Place::Node(key) = self.places[at] {
            self.places[at] = change(&mut self.nodes, key, actor, status);
        }
    }
}

ghost use Rattle.std.specs.Prelude.{◌≡◌, ◌≢◌, ℕ};
ghost use Rattle.slab.specs.Slab.{get, ContainsKey};
ghost use Rattle.mdf_actor.specs.Nodes.{status_at, HoldsAt};

use crate::status::ActorStatus;
use slab::Slab;

/// An actor that has neither ended nor been poisoned.
#[derive(Drop)]
pub struct Node {
    pub actor: u32,
    pub status: ActorStatus,
}

/// Where the status of an actor stands.
#[derive(Clone, Copy)]
pub enum Place {
    /// In its node, by the key.
    Node(usize),
    Ended,
    Poisoned,
}

/// Gives the actor of a node another status, and answers where that stands. The node of an actor that is over goes.
pub fn change(nodes: &mut Slab<Node>, key: usize, actor: u32, status: ActorStatus) -> Place
    requires { ContainsKey nodes.old key }
    ensures status { status_at nodes.new result ≡ status }
    ensures holds { HoldsAt nodes.new result key actor }
    ensures others { (other : ℕ) → other ≢ key → get nodes.new other ≡ get nodes.old other }
{
    match status {
        ActorStatus::Ended => {
            nodes.remove(key);
            Place::Ended
        }
        ActorStatus::Poisoned => {
            nodes.remove(key);
            Place::Poisoned
        }
        _ => {
            nodes[key] = Node { actor, status };
            Place::Node(key)
        }
    }
}

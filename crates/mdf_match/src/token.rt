use mpl_value::Known;

/// A port of an actor, which a token is addressed to.
#[derive(Clone, Copy, Debug, PartialEq, Eq)]
pub struct Tag {
    pub actor: u32,
    /// The place of the port among those of the actor, from 0.
    pub port: u32,
}

/// What travels along an arc of the program graph.
#[derive(Debug, Drop)]
pub struct Token {
    pub tag: Tag,
    pub known: Known,
}

/// The right of an actor to fire: all of its ports are filled.
#[derive(Clone, Copy, Debug, PartialEq, Eq)]
pub struct Ticket {
    pub actor: u32,
}

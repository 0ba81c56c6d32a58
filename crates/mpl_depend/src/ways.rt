use sqlite_items::{Boxed, Items};

/// What a path does to variables, each by the number of those in scope that are older than it.
#[derive(Clone, Copy)]
pub enum Event {
    Loosens(usize),
    Settles(usize),
    /// The second into the first.
    Copies(usize, usize),
    /// A use, by the number of its node, and its variable.
    Forces(u32, usize),
}

/// The ways through a body.
#[derive(Drop)]
pub enum Ways {
    Nothing,
    Only(Event),
    Then(Boxed<Ways>, Boxed<Ways>),
    /// One after another.
    All(Items<Ways>),
    Either(Boxed<Ways>, Boxed<Ways>),
    /// The test, and any number of times the body and the test again.
    Loop(Boxed<Ways>, Boxed<Ways>),
    Stop,
}

use std::collections::LinkedList;

/// What a seat of the table knows. No value of it is made.
pub struct View<J, E> {
    pub root: Option<J>,
    pub seen: LinkedList<E>,
    // What a view that was taken in knew.
    pub root_told: Option<J>,
    pub seen_told: LinkedList<E>,
    pub held: LinkedList<u64>,
    // None where the view is spent.
    pub parts: u64,
    pub inside: bool,
    // The turns given before its own, while it is inside.
    pub turns: u64,
}

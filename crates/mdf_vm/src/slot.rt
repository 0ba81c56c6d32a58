/// Where the words of a variable lie, and the number of the call whose result it holds in their place.
#[derive(Clone, Copy)]
pub struct Slot {
    pub at: usize,
    pub count: usize,
    pub pending: Option<u32>,
}

/// A worker took its actor out, or put it back.
#[derive(Clone, Copy)]
pub struct Entry {
    pub worker: u64,
    pub number: u64,
    pub takes: bool,
}

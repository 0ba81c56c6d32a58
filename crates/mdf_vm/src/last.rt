use mpl_value::Trap;

/// What is left of the last stop of a frame.
#[derive(Clone, Copy)]
pub enum Last {
    Going,
    /// A call of a member, of which the result has yet to be taken.
    Called(u32),
    Needs(u32),
    Creates,
    /// An object, of which the word has yet to be taken.
    Named(i64),
    /// The end, with the line where a result was missed.
    Ended(u32),
    Trapped(Trap),
}

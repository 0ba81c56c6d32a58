/// What may come next in a machine.
#[derive(Clone, Copy, Debug, PartialEq, Eq)]
pub enum Item {
    /// The due token at a place, the oldest at 0, goes where it is due.
    Match(u32),
    /// A call on an object arrives there, by its actor.
    Arrive(u32),
    /// An object accepts its pick.
    Accept(i64),
    /// An actor's frame begins.
    Fire(u32),
    /// An actor's frame goes on with a result that it was parked for.
    Resume(u32),
    /// An actor whose frame is out runs to its next stop.
    Run(u32),
}

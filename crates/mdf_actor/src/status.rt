/// How far an actor has come.
#[derive(Clone, Copy, Debug, PartialEq, Eq)]
pub enum ActorStatus {
    /// For so many arguments.
    Waiting(u32),
    /// It may fire.
    Ready,
    Running,
    /// Until the result of this number is known.
    Parked(u32),
    Ended,
    /// An argument is a trap, so it never fires.
    Poisoned,
}

use mdf_actor::ActorStatus;

/// The actor's status doesn't let its frame go out.
#[derive(Clone, Copy, Debug, PartialEq, Eq)]
pub struct NotReady {
    pub status: ActorStatus,
}

/// The result isn't known.
#[derive(Clone, Copy, Debug, PartialEq, Eq)]
pub struct Open;

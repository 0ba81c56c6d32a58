use mdf_actor::{ActorStatus, Actors};
use std::test::Fail;

#[test]
fn ended_actor_stays_ended(rt: HostRuntime) -> Result<(), Fail> {
    let mut actors = Actors::new(rt.alloc());
    let first = actors.add(2)?;
    assert_eq!(rt; actors.status(first), ActorStatus::Waiting(2));
    actors.set(first, ActorStatus::Ended);
    let second = actors.add(0)?;
    assert_eq!(rt; actors.status(first), ActorStatus::Ended);
    assert_eq!(rt; actors.status(second), ActorStatus::Waiting(0));
    Ok(())
}

#[test]
fn newest_actor_is_withdrawn(rt: HostRuntime) -> Result<(), Fail> {
    let mut actors = Actors::new(rt.alloc());
    let first = actors.add(2)?;
    let second = actors.add(3)?;
    actors.withdraw();
    assert_eq!(rt; actors.status(first), ActorStatus::Waiting(2));
    let again = actors.add(0)?;
    assert_eq!(rt; again, second);
    assert_eq!(rt; actors.status(again), ActorStatus::Waiting(0));
    Ok(())
}

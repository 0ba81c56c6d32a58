ghost use Rattle.std.specs.Prelude.{◌≡◌, IsSome, OnOk};
ghost use Rattle.std.specs.Option.{option_map};
ghost use Rattle.std.specs.FinMap as map;

use crate::values::one_word;
use mdf_future::{Consumer, Due, Futures, Give, ResultState};
use mdf_match::{Seen, Tag};
use mpl_value::NoMemory;
use std::test::Fail;

const FIRST: Consumer = Consumer::Port(Tag { actor: 9, port: 0 });

const SECOND: Consumer = Consumer::Port(Tag { actor: 9, port: 1 });

/// Adds consumers of a result, one after another.
fn wait_all(futures: &mut Futures, on: u32, consumers: &[Consumer]) -> Result<(), NoMemory>
    requires { IsSome (map.get futures.old.results on) }
    ensures { OnOk result (option_map (λ f. f.fate) (map.get futures.new.results on) ≡ option_map (λ f. f.fate) (map.get futures.old.results on)) }
{
    for consumer in consumers {
        futures.wait(on, *consumer)?;
    }
    Ok(())
}

#[test]
fn consumers_are_due_in_order(rt: HostRuntime) -> Result<(), Fail> {
    let known = one_word(rt.alloc(), 7)?;
    let before = [FIRST, Consumer::Parked(1), Consumer::Result(2)];
    let after = [Consumer::Result(3), Consumer::Parked(1), SECOND];
    let mut futures = Futures::new(rt.alloc());
    futures.open(4)?;
    wait_all(&mut futures, 4, before.as_slice())?;
    assert_eq!(rt; futures.due_at(0), None);
    futures.give(4, Give::Known(known));
    assert_eq!(rt; futures.seen(4), Some(Seen::Words(1)));
    assert_eq!(rt; futures.word(4, 0), 7);
    wait_all(&mut futures, 4, after.as_slice())?;
    assert_eq!(rt; futures.due_len(), 4);
    for consumer in [FIRST, Consumer::Result(2), Consumer::Result(3), SECOND] {
        let due = Some(Due { consumer, from: 4 });
        assert_eq!(rt; futures.due_at(0), due);
        assert_eq!(rt; futures.take_at(0), due);
    }
    assert_eq!(rt; futures.take_at(0), None);
    Ok(())
}

#[test]
fn forwarded_result_becomes_known(rt: HostRuntime) -> Result<(), Fail> {
    let known = one_word(rt.alloc(), 7)?;
    let mut futures = Futures::new(rt.alloc());
    futures.open(4)?;
    wait_all(&mut futures, 4, [FIRST].as_slice())?;
    futures.give(4, Give::Result(6));
    assert_eq!(rt; futures.state(4), ResultState::Forwarded(6));
    assert_eq!(rt; futures.take_at(0), None);
    futures.give(4, Give::Known(known));
    assert_eq!(rt;
        futures.take_at(0),
        Some(Due {
            consumer: FIRST,
            from: 4
        })
    );
    Ok(())
}

#[test]
fn ports_of_a_new_actor_wait(rt: HostRuntime) -> Result<(), Fail> {
    let known = one_word(rt.alloc(), 7)?;
    let mut futures = Futures::new(rt.alloc());
    futures.open(4)?;
    futures.open_with(9, [None, Some(4)].as_slice())?;
    assert_eq!(rt; futures.state(9), ResultState::Open);
    assert_eq!(rt; futures.due_at(0), None);
    futures.give(4, Give::Known(known));
    assert_eq!(rt;
        futures.take_at(0),
        Some(Due {
            consumer: SECOND,
            from: 4
        })
    );
    Ok(())
}

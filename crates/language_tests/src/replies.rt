//! Replies by the numbers of their calls.
use mpl_value::{Known, Replies, Trap, TrapKind, Words};
use std::test::Fail;

#[test]
fn replies_are_found_by_their_calls(rt: HostRuntime) -> Result<(), Fail> {
    let trap = Trap {
        kind: TrapKind::Index,
        line: 4,
    };
    let mut replies = Replies::new(rt.alloc());
    assert!(rt; replies.get(2).is_none());
    replies.set(2, Known::Trapped(trap))?;
    assert!(rt; replies.get(1).is_none());
    replies.set(
        1,
        Known::Value(Words::from_slice(rt.alloc(), [6].as_slice())?),
    )?;
    assert!(rt; matches!(replies.get(2), Some(Known::Trapped(found)) if *found == trap));
    assert!(rt; matches!(replies.get(1), Some(Known::Value(words)) if words.get(0) == Some(6)));
    assert!(rt; replies.get(3).is_none());
    Ok(())
}

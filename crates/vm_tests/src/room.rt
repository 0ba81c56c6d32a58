use mpl_value::RoomyWords;
use std::test::Fail;

#[test]
fn words_take_the_room_that_is_there(rt: HostRuntime) -> Result<(), Fail> {
    let mut words = RoomyWords::with_room(rt.alloc(), 2)?;
    words.add_within(5);
    words.add_within(-6);
    words.push(7)?;
    assert_eq!(rt; words.len(), 3);
    assert_eq!(rt; words.as_slice(), [5, -6, 7].as_slice());
    assert_eq!(rt; words.into_words().as_slice(), [5, -6, 7].as_slice());
    Ok(())
}

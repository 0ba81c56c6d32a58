use mentat_input::{InputFault, read_numbers};
use mentat_io::MemSource;
use mpl_value::{Bytes, NoMemory, Words};
use std::alloc::Global;
use std::test::Fail;

// What an input gives that is read so many bytes at a time, and of which the call of this number fails.
fn numbers(
    alloc: Global,
    input: &[u8],
    most: u32,
    fails: i64,
) -> Result<Result<Words, InputFault>, NoMemory> {
    let left = Bytes::from_slice(alloc, input)?;
    let failing = Words::from_slice(alloc, [fails].as_slice())?;
    let mut source = MemSource::new(left, most.max(1), failing);
    Ok(read_numbers(alloc, &mut source))
}

#[test]
fn inputs(rt: HostRuntime) -> Result<(), Fail> {
    let text = b"5 -3\n9223372036854775807".as_slice();
    for most in [1, 3, 100] {
        let read = numbers(rt.alloc(), text, most, 99)?;
        assert!(rt; matches!(&read, Ok(words) if words.as_slice() == [5, -3, i64::MAX].as_slice()));
    }
    let stopped = numbers(rt.alloc(), text, 3, 4)?;
    assert!(rt; matches!(&stopped, Err(InputFault::ReadFault)));
    let wrong = numbers(rt.alloc(), b"5 -3 x".as_slice(), 2, 99)?;
    assert!(rt; matches!(&wrong, Err(InputFault::BadInput(5))));
    Ok(())
}

use crate::flaky::Flaky;
use mentat_io::{FileShelf, MemShelf, Shelf, ShelfFault, SureShelf, Text};
use mpl_value::{Bytes, NoMemory, Words};
use std::alloc::Global;

// How many bytes a shelf gives for a name, and None where it fails.
fn length<S: Shelf>(
    alloc: Global,
    shelf: &mut S,
    name: &str,
    cap: u32,
) -> Result<Option<usize>, NoMemory> {
    let name = Text::of(alloc, name)?;
    match shelf.read_file(alloc, &name, cap) {
        Ok(bytes) => Ok(Some(bytes.len())),
        Err(ShelfFault::Failed) => Ok(None),
        Err(ShelfFault::NoMemory) => Err(NoMemory),
    }
}

// Puts that file on two shelves.
fn add(
    alloc: Global,
    listed: &mut MemShelf,
    sure: &mut SureShelf,
    name: &str,
    bytes: &[u8],
) -> Result<(), NoMemory> {
    listed.add_file(Text::of(alloc, name)?, Bytes::from_slice(alloc, bytes)?)?;
    sure.add_file(Text::of(alloc, name)?, Bytes::from_slice(alloc, bytes)?)
}

#[test]
fn shelves_in_memory(rt: HostRuntime) {
    let alloc = rt.alloc();
    let failing = Words::from_slice(alloc, &[3]).expect(&rt, "memory");
    let mut listed = MemShelf::new(alloc, failing);
    let mut sure = SureShelf::new(alloc);
    add(alloc, &mut listed, &mut sure, "a", b"int main").expect(&rt, "memory");
    add(alloc, &mut listed, &mut sure, "b", b"second").expect(&rt, "memory");
    add(alloc, &mut listed, &mut sure, "a", b"first").expect(&rt, "memory");
    for (name, cap, first, second) in [
        ("a", 100, Some(5), Some(5)),
        ("b", 3, Some(3), Some(3)),
        ("b", 6, Some(6), None),
        ("b", 7, Some(6), Some(6)),
        ("c", 7, None, None),
    ] {
        assert!(rt; length(alloc, &mut sure, name, cap) == Ok(first));
        assert!(rt; length(alloc, &mut listed, name, cap) == Ok(second));
    }
}

#[test]
fn files(rt: HostRuntime) {
    for (name, fails, ends, cap, want) in [
        ("a", 0, 9, 20_000, Some(20_000)),
        ("a", 0, 4, 20_000, Some(16_384)),
        ("a", 0, 2, 20_000, Some(0)),
        ("a", 3, 9, 20_000, None),
        ("a", 3, 9, 8_000, Some(8_000)),
        ("", 0, 9, 8_000, None),
    ] {
        let mut shelf = FileShelf::new(Flaky {
            calls: 0,
            fails,
            ends,
        });
        assert!(rt; length(rt.alloc(), &mut shelf, name, cap) == Ok(want));
    }
}

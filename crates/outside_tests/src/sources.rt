use crate::flaky::Flaky;
use mentat_io::{Failed, MemSource, Source, StdSource, SureSource};
use mpl_value::{Bytes, Words};

const TEXT: &[u8] = b"thirteen bits";

// How many bytes are read in pieces of 4, and whether they came to the end in nine calls.
fn read_all<S: Source>(source: &mut S) -> (usize, bool) {
    let mut read = 0usize;
    let mut piece = [0u8; 4];
    for _ in 0..9 {
        match source.read(&mut piece) {
            Ok(0) => return (read, true),
            Ok(count) => read = read.saturating_add(count),
            Err(Failed) => return (read, false),
        }
    }
    (read, false)
}

#[test]
fn sources(rt: HostRuntime) {
    for (most, failing, want) in [(100, 9, (13, true)), (3, 9, (13, true)), (3, 3, (6, false))] {
        let left = Bytes::from_slice(rt.alloc(), TEXT).expect(&rt, "memory");
        let failing = Words::from_slice(rt.alloc(), &[failing]).expect(&rt, "memory");
        assert!(rt; read_all(&mut MemSource::new(left, most, failing)) == want);
    }
    let left = Bytes::from_slice(rt.alloc(), TEXT).expect(&rt, "memory");
    assert!(rt; read_all(&mut SureSource::new(left)) == (13, true));
    for (fails, ends, want) in [(0, 4, (8, true)), (3, 9, (4, false))] {
        let file = Flaky {
            calls: 0,
            fails,
            ends,
        };
        assert!(rt; read_all(&mut StdSource::new(file)) == want);
    }
}

use crate::flaky::Flaky;
use mentat_io::{Failed, MemSink, Sink, StdSink, SureSink};
use mpl_value::Words;

const TEXT: &[u8] = b"some text";

// Writes the text, and tells how many bytes were left at the first fault.
fn left_of_text<K: Sink>(sink: &mut K) -> usize {
    let mut left = TEXT;
    for _ in TEXT {
        if left.is_empty() {
            return 0;
        }
        match sink.write(left) {
            Ok(count) => left = &left[count..],
            Err(Failed) => return left.len(),
        }
    }
    left.len()
}

#[test]
fn sinks(rt: HostRuntime) {
    for (most, failing, left) in [(100, 9, 0), (2, 9, 0), (2, 3, 5)] {
        let failing = Words::from_slice(rt.alloc(), &[failing]).expect(&rt, "memory");
        let mut sink = MemSink::new(rt.alloc(), most, failing);
        assert_eq!(rt; left_of_text(&mut sink), left);
        assert!(rt; Some(sink.written().as_slice()) == TEXT.get(..9 - left));
    }
    assert_eq!(rt; left_of_text(&mut SureSink::new()), 0);
    for (fails, ends, left) in [(0, 9, 0), (3, 9, 5), (0, 4, 1)] {
        let file = Flaky {
            calls: 0,
            fails,
            ends,
        };
        assert_eq!(rt; left_of_text(&mut StdSink::new(file)), left);
    }
}

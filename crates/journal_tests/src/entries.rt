use mdf_mean::{Entry, Journal};
use mpl_value::{Known, Words};
use std::test::Fail;

#[test]
fn a_journal_keeps_its_entries(rt: HostRuntime) -> Result<(), Fail> {
    let mut journal = Journal::new(rt.alloc());
    journal.push(Entry::Arrive { body: 0, call: 1 })?;
    journal.reserve(2)?;
    journal.add_within(Entry::Accept {
        number: 1,
        body: 0,
        call: 1,
    });
    journal.add_within(Entry::Reply {
        body: 0,
        call: 1,
        known: Known::Value(Words::new(rt.alloc())),
    });
    assert_eq!(rt; journal.len(), 3);
    assert!(rt; matches!(journal.get(0), Some(Entry::Arrive { body: 0, call: 1 })));
    assert!(rt; matches!(journal.get(2), Some(Entry::Reply { call: 1, .. })));
    assert!(rt; journal.get(3).is_none());
    Ok(())
}

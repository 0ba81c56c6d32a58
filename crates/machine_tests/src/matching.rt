use crate::values::one_word;
use mdf_match::{Matcher, Seen, Tag, Ticket, Token};
use std::test::Fail;

const FIRST: Tag = Tag { actor: 4, port: 0 };

const SECOND: Tag = Tag { actor: 4, port: 1 };

#[test]
fn last_port_gives_the_ticket(rt: HostRuntime) -> Result<(), Fail> {
    let left = one_word(rt.alloc(), 5)?;
    let right = one_word(rt.alloc(), 7)?;
    let mut matcher = Matcher::new(rt.alloc());
    matcher.open(4, 2)?;
    assert_eq!(rt;
        matcher.arrive(Token {
            tag: SECOND,
            known: right
        }),
        None
    );
    assert_eq!(rt; matcher.missing(4), Some(1));
    assert_eq!(rt; matcher.seen(FIRST), None);
    assert_eq!(rt;
        matcher.arrive(Token {
            tag: FIRST,
            known: left
        }),
        Some(Ticket { actor: 4 })
    );
    assert_eq!(rt; matcher.seen(SECOND), Some(Seen::Words(1)));
    assert_eq!(rt; matcher.word(SECOND, 0), 7);
    matcher.close(4);
    assert_eq!(rt; matcher.missing(4), None);
    Ok(())
}

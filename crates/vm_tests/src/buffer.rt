use crate::frames::start;
use crate::images::{Body, Shape};
use crate::played::{Played, play, play_main};
use crate::rows::Row;
use mdf_vm::Sent;
use mpl_value::MemberId;
use std::alloc::Global;
use std::test::Fail;

const PUT: MemberId = MemberId(0);

const GET: MemberId = MemberId(1);

/// int v; bool full; void put(int x) { v = x; full = true; } int get() { full = false; rtf(v); }
/// int main() { buffer b; b.create(); int x = b.get(); b.put(7); print(x); }
const BUFFER: Shape = Shape {
    words: 2,
    members: &[
        Body {
            formals: 1,
            gives: false,
            variables: 1,
            rows: &[
                Row::Load(0),
                Row::Keep(0),
                Row::Push(1),
                Row::Keep(1),
                Row::End(1),
            ],
        },
        Body {
            formals: 0,
            gives: true,
            variables: 0,
            rows: &[
                Row::Push(0),
                Row::Keep(1),
                Row::Fetch(0),
                Row::ArgWords,
                Row::Reply,
                Row::End(1),
            ],
        },
    ],
    guard: None,
    variables: 2,
    main: &[
        Row::Create,
        Row::Store(0),
        Row::Load(0),
        Row::Bound,
        Row::Post(1, 0),
        Row::SetVariable(1),
        Row::Push(7),
        Row::ArgWords,
        Row::Load(0),
        Row::Bound,
        Row::Post(0, 1),
        Row::DropFlow,
        Row::Need(1),
        Row::Load(1),
        Row::Print,
        Row::End(1),
    ],
};

fn play_member(alloc: Global, member: MemberId, args: &[i64], state: &[i64]) -> Option<Played> {
    let begin = start(alloc, Some(member), args, state)?;
    play(alloc, &BUFFER, begin, &[])
}

fn is_call(sent: Option<&Sent>, member: MemberId) -> bool {
    match sent {
        Some(sent) => sent.member == member && sent.object == 1,
        None => false,
    }
}

#[test]
fn put_fills_the_buffer(rt: HostRuntime) -> Result<(), Fail> {
    let put = play_member(rt.alloc(), PUT, &[7], &[0, 0]).ok_or("given up")?;
    assert_eq!(rt; put.ended.state.as_slice(), [7, 1].as_slice());
    Ok(())
}

#[test]
fn get_gives_what_was_put(rt: HostRuntime) -> Result<(), Fail> {
    let get = play_member(rt.alloc(), GET, &[], &[7, 1]).ok_or("given up")?;
    assert_eq!(rt; get.ended.state.as_slice(), [7, 0].as_slice());
    assert_eq!(rt; get.heard.given, 7);
    Ok(())
}

#[test]
fn main_prints_what_it_gets(rt: HostRuntime) -> Result<(), Fail> {
    let main = play_main(rt.alloc(), &BUFFER, &[7]).ok_or("given up")?;
    assert_eq!(rt; main.heard.calls.len(), 2);
    assert!(rt; is_call(main.heard.calls.get(0), GET));
    assert!(rt; is_call(main.heard.calls.get(1), PUT));
    assert_eq!(rt; main.heard.lines.as_slice(), b"7\n".as_slice());
    Ok(())
}

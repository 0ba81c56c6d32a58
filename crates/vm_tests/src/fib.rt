use crate::frames::start;
use crate::images::{Body, Shape};
use crate::played::{play, play_main};
use crate::rows::Row;
use mpl_value::{MemberId, Words};
use std::alloc::Global;
use std::test::Fail;

/// What the plain program says of the calls of `fib` with 0 to 10.
const FIBS: [i64; 11] = [0, 1, 1, 2, 3, 5, 8, 13, 21, 34, 55];

/// int fib(int n) { calc w; if (n < 2) { rtf(n); }
///   else { int a = w.fib(n - 1); int b = w.fib(n - 2); rtf(a + b); } }
/// int main() { calc w; int r = w.fib(10); print(r); }
const FIB: Shape = Shape {
    words: 0,
    members: &[Body {
        formals: 1,
        gives: true,
        variables: 3,
        rows: &[
            Row::Load(0),
            Row::Push(2),
            Row::Less,
            Row::JumpZero(8),
            Row::Load(0),
            Row::ArgWords,
            Row::Reply,
            Row::Jump(27),
            Row::Load(0),
            Row::Push(1),
            Row::Sub,
            Row::ArgWords,
            Row::Send(0),
            Row::SetVariable(1),
            Row::Load(0),
            Row::Push(2),
            Row::Sub,
            Row::ArgWords,
            Row::Send(0),
            Row::SetVariable(2),
            Row::Need(1),
            Row::Need(2),
            Row::Load(1),
            Row::Load(2),
            Row::Add,
            Row::ArgWords,
            Row::Reply,
            Row::End(1),
        ],
    }],
    guard: None,
    variables: 1,
    main: &[
        Row::Push(10),
        Row::ArgWords,
        Row::Send(0),
        Row::SetVariable(0),
        Row::Need(0),
        Row::Load(0),
        Row::Print,
        Row::End(1),
    ],
};

fn fib_of(alloc: Global, number: i64) -> Option<i64> {
    let begin = start(alloc, Some(MemberId(0)), &[number], &[])?;
    let played = play(alloc, &FIB, begin, &FIBS)?;
    Some(played.heard.given)
}

/// What the calls with 0 to 10 give.
fn fibs(alloc: Global) -> Option<Words> {
    let mut fibs = Words::new(alloc);
    for number in 0..11 {
        fibs.push(fib_of(alloc, number)?).ok()?;
    }
    Some(fibs)
}

#[test]
fn calls_give_fib(rt: HostRuntime) -> Result<(), Fail> {
    let fibs = fibs(rt.alloc()).ok_or("given up")?;
    assert_eq!(rt; fibs.as_slice(), FIBS.as_slice());
    Ok(())
}

#[test]
fn fib_of_10_is_55(rt: HostRuntime) -> Result<(), Fail> {
    let main = play_main(rt.alloc(), &FIB, &FIBS).ok_or("given up")?;
    assert_eq!(rt; main.heard.lines.as_slice(), b"55\n".as_slice());
    Ok(())
}

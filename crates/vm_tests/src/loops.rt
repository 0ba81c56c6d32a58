use crate::frames::{frame_at, run, start};
use crate::images::{Shape, image};
use crate::played::{Played, play_main};
use crate::rows::Row;
use mdf_code::Image;
use mdf_vm::{Frame, Stop};
use mpl_value::{Trap, TrapKind};
use std::alloc::Global;
use std::test::Fail;

/// An image of `main` alone, with one variable.
const fn of_main(main: &'static [Row]) -> Shape {
    Shape {
        words: 0,
        members: &[],
        guard: None,
        variables: 1,
        main,
    }
}

/// int main() { while (true) { } }
const ENDLESS: [Row; 5] = [
    Row::Test,
    Row::Push(1),
    Row::JumpZero(4),
    Row::Jump(0),
    Row::End(1),
];

/// int main() { int n = 2; while (n > 0) { print(n); n = n - 1; } }
const COUNTS_DOWN: [Row; 15] = [
    Row::Push(2),
    Row::Store(0),
    Row::Test,
    Row::Push(0),
    Row::Load(0),
    Row::Less,
    Row::JumpZero(14),
    Row::Load(0),
    Row::Print,
    Row::Load(0),
    Row::Push(1),
    Row::Sub,
    Row::Store(0),
    Row::Jump(2),
    Row::End(7),
];

/// int main() { 1 / 0; }
const DIVIDES_BY_0: [Row; 3] = [Row::Push(1), Row::Push(0), Row::Div];

/// The turns at a beat.
fn beat(image: &Image, frame: &mut Frame) -> Option<u32> {
    match run(image, frame, 3)? {
        Stop::Beat => Some(frame.turns()),
        _ => None,
    }
}

fn two_beats(image: &Image, frame: &mut Frame) -> Option<(u32, u32)> {
    let first = beat(image, frame)?;
    let second = beat(image, frame)?;
    Some((first, second))
}

fn main_beats(alloc: Global, image: &Image) -> Option<(u32, u32)> {
    let begin = start(alloc, None, &[], &[])?;
    let mut frame = frame_at(alloc, image, begin)?;
    two_beats(image, &mut frame)
}

/// The turns at the first two beats.
fn beats(alloc: Global) -> Option<(u32, u32)> {
    let image = image(alloc, &of_main(&ENDLESS))?;
    main_beats(alloc, &image)
}

fn play_alone(alloc: Global, main: &'static [Row]) -> Option<Played> {
    play_main(alloc, &of_main(main), &[])
}

#[test]
fn endless_loop_beats(rt: HostRuntime) {
    assert_eq!(rt; beats(rt.alloc()), Some((3, 3)));
}

#[test]
fn lines_are_printed(rt: HostRuntime) -> Result<(), Fail> {
    let main = play_alone(rt.alloc(), &COUNTS_DOWN).ok_or("given up")?;
    assert_eq!(rt; main.heard.turns, 3);
    assert_eq!(rt; main.ended.lines.as_slice(), b"2\n1\n".as_slice());
    assert_eq!(rt; main.ended.line, 7);
    assert_eq!(rt; main.ended.trap, None);
    Ok(())
}

#[test]
fn division_by_0_traps(rt: HostRuntime) -> Result<(), Fail> {
    let main = play_alone(rt.alloc(), &DIVIDES_BY_0).ok_or("given up")?;
    let trap = Trap {
        kind: TrapKind::DivZero,
        line: 1,
    };
    assert_eq!(rt; main.ended.trap, Some(trap));
    Ok(())
}

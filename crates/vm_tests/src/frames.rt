//! The calls of a frame. None stands for no memory, and for a frame that doesn't ask for what it is told.
ghost use Rattle.std.specs.Prelude.{◌≤◌};

use mdf_code::Image;
use mdf_vm::{Ended, Frame, Stop};
use mpl_value::{BodyStart, Known, MemberId, Words};
use std::alloc::Global;

/// The start of a body with these arguments, on an object with this state.
pub fn start(
    alloc: Global,
    member: Option<MemberId>,
    args: &[i64],
    state: &[i64],
) -> Option<BodyStart> {
    let args = Words::from_slice(alloc, args).ok()?;
    let state = Words::from_slice(alloc, state).ok()?;
    Some(BodyStart {
        member,
        args,
        state,
        object: 0,
        number: 0,
        input: Words::new(alloc),
    })
}

/// A frame at its start. That of a member fills the room that was made before.
pub fn frame_at(alloc: Global, image: &Image, begin: BodyStart) -> Option<Frame> {
    if begin.member.is_none() {
        return Frame::start(alloc, image, &begin).ok();
    }
    let mut frame = Frame::hollow(alloc, image, begin.member).ok()?;
    frame.fill(begin);
    Some(frame)
}

/// Runs on, and once more where no memory was left.
pub fn run(image: &Image, frame: &mut Frame, quantum: u32) -> Option<Stop>
    requires some { 1 ≤ quantum }
    requires few { quantum ≤ 256 }
{
    for _try in 0..2 {
        if !frame.is_ready() {
            return None;
        }
        if let Ok(stop) = frame.run(image, quantum) {
            return Some(stop);
        }
    }
    None
}

/// The word of a result.
pub fn learn(alloc: Global, frame: &mut Frame, number: u32, word: i64) -> Option<()> {
    let words = Words::from_slice(alloc, &[word]).ok()?;
    if !frame.awaits(number) {
        return None;
    }
    frame.learn(number, Known::Value(words));
    Some(())
}

/// The word of an object.
pub fn name(frame: &mut Frame, object: i64) -> Option<()> {
    if !frame.awaits_object() {
        return None;
    }
    frame.named(object);
    Some(())
}

pub fn finish(frame: Frame) -> Option<Ended> {
    if !frame.is_over() {
        return None;
    }
    Some(frame.finish())
}

//! Bodies that are run to their end. None stands for no memory, and for what isn't answered here.
use crate::frames::{finish, frame_at, learn, name, run, start};
use crate::images::{Shape, image};
use mdf_code::Image;
use mdf_vm::{Ended, FlowArg, Frame, Sent, Stop};
use mpl_value::{BodyStart, Bytes, Known, Listed};
use std::alloc::Global;

/// What a frame told on its way to its end or to a trap.
#[derive(Drop)]
pub struct Heard {
    pub calls: Listed<Sent>,
    /// The word that it gave, or 0.
    pub given: i64,
    pub turns: u32,
    pub lines: Bytes,
}

/// What a frame told on its way, and what is left of it.
#[derive(Drop)]
pub struct Played {
    pub heard: Heard,
    pub ended: Ended,
}

/// The word of a value of one word.
fn word_of(value: &FlowArg) -> Option<i64> {
    match value {
        FlowArg::Known(Known::Value(words)) => words.get(0),
        _ => None,
    }
}

/// The first word of a call, or 0 where it has none.
fn first_word(sent: &Sent) -> Option<i64> {
    match sent.args.get(0) {
        None => Some(0),
        Some(value) => word_of(value),
    }
}

impl Heard {
    fn new(alloc: Global) -> Heard {
        Heard {
            calls: Listed::new(alloc),
            given: 0,
            turns: 0,
            lines: Bytes::new(alloc),
        }
    }

    /// What the call of that number gives.
    fn result_of(&self, number: u32, results: &[i64]) -> Option<i64> {
        let sent = self.calls.get((number as usize).checked_sub(1)?)?;
        let first = usize::try_from(first_word(sent)?).ok()?;
        results.get(first).copied()
    }

    /// Answers a stop of the frame. Each object is named 1.
    fn answer(
        &mut self,
        alloc: Global,
        frame: &mut Frame,
        stop: Stop,
        results: &[i64],
    ) -> Option<()> {
        match stop {
            Stop::Call(sent) => self.calls.push(sent).ok(),
            Stop::Need(number) => learn(alloc, frame, number, self.result_of(number, results)?),
            Stop::Reply(value) => {
                self.given = word_of(&value)?;
                Some(())
            }
            Stop::Create(_) => name(frame, 1),
            Stop::End | Stop::Trap(_) | Stop::Beat => Some(()),
        }
    }

    /// At the end of the frame.
    fn end(&mut self, frame: &mut Frame) -> Option<()> {
        self.turns = frame.turns();
        self.lines = frame.lines().copy().ok()?;
        Some(())
    }
}

fn hear(alloc: Global, image: &Image, frame: &mut Frame, results: &[i64]) -> Option<Heard> {
    let mut heard = Heard::new(alloc);
    for _stop in 0..8 {
        if frame.is_over() {
            heard.end(frame)?;
            return Some(heard);
        }
        let stop = run(image, frame, 256)?;
        heard.answer(alloc, frame, stop, results)?;
    }
    None
}

fn play_on(alloc: Global, image: &Image, begin: BodyStart, results: &[i64]) -> Option<Played> {
    let mut frame = frame_at(alloc, image, begin)?;
    let heard = hear(alloc, image, &mut frame, results)?;
    let ended = finish(frame)?;
    Some(Played { heard, ended })
}

/// Runs a body, and answers its calls by `results`: the first word of a call, or 0 where it has none, picks what it gives.
pub fn play(alloc: Global, shape: &Shape, begin: BodyStart, results: &[i64]) -> Option<Played> {
    let image = image(alloc, shape)?;
    play_on(alloc, &image, begin, results)
}

pub fn play_main(alloc: Global, shape: &Shape, results: &[i64]) -> Option<Played> {
    let begin = start(alloc, None, &[], &[])?;
    play(alloc, shape, begin, results)
}

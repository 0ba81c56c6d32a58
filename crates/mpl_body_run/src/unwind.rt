ghost use Rattle.std.specs.Prelude.{◌≡◌, ◌≢◌, ◌<◌, ℕ, [], ◌∷◌, List, length, IfOk, IfSome, MatchOption};
ghost use Rattle.mpl_value.specs.declared.body.BodyEnd.{BodyEnd};
ghost use Rattle.mpl_value.specs.CallAnswers.{arg_of_result};
ghost use Rattle.mpl_value.specs.Results.{result_at};
ghost use Rattle.mpl_value.specs.declared.body.BodyResult.TheVariants as variant;
ghost use Rattle.mpl_value.specs.declared.body.BodyEnd.TheVariants as end;
ghost use Rattle.mpl_body_code.specs.Machine.{Body as Inner, OfRegular, Stops, at_end, at_stop, ended, finished, item_of, resumed, returned, yield_at};
ghost use Rattle.mpl_body_run.specs.Seen.{body_seen, caller_seen, callers_seen, frame_seen};
ghost use Rattle.mpl_body_run.specs.SeenEnds.{next_seen};
ghost use Rattle.mpl_body_run.specs.SeenItems.{item_seen, words_seen};
ghost use Rattle.mpl_body_run.specs.declared.machine.Caller.{Caller};

use crate::machine::{Body, Caller, Frame};
use crate::stack::Holds;
use crate::word_list::{WordList, as_item};
use mpl_body_code::Finish;
use mpl_value::{BodyEnd, BodyResult, Known, NoMemory, Trap, TrapKind, Words, Yield};
use std::alloc::Global;

/// What goes on where a body or a plain function is over.
#[derive(Drop)]
pub enum Next {
    Goes(Frame, Body),
    Stops(Yield),
}

/// The result of a body that is done.
fn at_end(alloc: Global, finish: Finish, given: BodyResult) -> BodyResult
    ensures { result ≡ at_end finish given }
{
    match given {
        BodyResult::Open => match finish {
            Finish::Main => BodyResult::Open,
            Finish::Void => BodyResult::Known(Known::Value(Words::new(alloc))),
            Finish::Value(line) => {
                let kind = TrapKind::NoReply;
                BodyResult::Known(Known::Trapped(Trap { kind, line }))
            }
        },
        BodyResult::Known(known) => BodyResult::Known(known),
        BodyResult::Unknown => BodyResult::Unknown,
    }
}

/// The result of a body that ends otherwise.
fn at_stop(finish: Finish, at: BodyEnd, given: BodyResult) -> BodyResult
    ensures { result ≡ at_stop finish at given }
{
    match given {
        BodyResult::Open => match finish {
            Finish::Main => BodyResult::Open,
            Finish::Void => open_at(at),
            Finish::Value(_) => open_at(at),
        },
        BodyResult::Known(known) => BodyResult::Known(known),
        BodyResult::Unknown => BodyResult::Unknown,
    }
}

/// What becomes of an open result.
fn open_at(at: BodyEnd) -> BodyResult
    ensures { result ≡ result_at at variant.Open }
{
    match at {
        BodyEnd::Trap(trap) => BodyResult::Known(Known::Trapped(trap)),
        BodyEnd::Done => BodyResult::Open,
        BodyEnd::Waits => BodyResult::Open,
        BodyEnd::Spent => BodyResult::Open,
    }
}

/// A result, as the caller gets it.
fn answer(alloc: Global, given: BodyResult) -> Result<Holds, NoMemory>
    ensures { IfOk result (λ h. item_seen h ≡ item_of (arg_of_result given)) }
{
    match given {
        BodyResult::Known(Known::Value(words)) => as_item(alloc, words, false),
        BodyResult::Known(Known::Trapped(trap)) => Ok(Holds::Trapped(trap)),
        BodyResult::Open => Ok(Holds::Unknown),
        BodyResult::Unknown => Ok(Holds::Unknown),
    }
}

/// The yield of the outermost body, which ends before its end.
pub fn stopped(at: BodyEnd, body: Body, turns: u64) -> Yield
    ensures { result ≡ yield_at at (at_stop body.finish at body.result) (body_seen body) turns }
{
    Yield {
        lines: body.lines,
        calls: body.calls,
        creations: body.creations,
        result: at_stop(body.finish, at, body.result),
        state: body.state,
        turns,
        end: at,
    }
}

/// The yield of the outermost body at its end.
fn done(alloc: Global, body: Body, turns: u64) -> Yield
    ensures { result ≡ yield_at end.Done (at_end body.finish body.result) (body_seen body) turns }
{
    Yield {
        lines: body.lines,
        calls: body.calls,
        creations: body.creations,
        result: at_end(alloc, body.finish, body.result),
        state: body.state,
        turns,
        end: BodyEnd::Done,
    }
}

/// The frame goes on with one more item.
fn resumed(frame: Frame, item: Holds, body: Body) -> Result<Next, NoMemory>
    ensures { IfOk result (λ next. (callers : List Caller) (turns : ℕ) → resumed (frame_seen frame) (item_seen item) (body_seen body) (callers_seen callers) turns ≡ next_seen next callers turns) }
{
    let mut frame = frame;
    frame.stack.push(item)?;
    Ok(Next::Goes(frame, body))
}

/// The caller of a body, behind the plain functions that the body is in.
fn caller_of(callers: &mut Vec<Caller>) -> Option<(Frame, Body)>
    ensures fewer { IfSome result (λ _. length callers.new.items < length callers.old.items) }
    ensures behind { (at : BodyEnd) (body : Inner) (turns : ℕ) → MatchOption result (ended (callers_seen callers.old.items) at body turns ≡ ended [] at body turns) (λ caller. ended (callers_seen callers.old.items) at body turns ≡ ended (OfRegular (frame_seen caller.0) (body_seen caller.1) ∷ callers_seen callers.new.items) at body turns) }
{
    while let Some(caller) = callers.pop() {
        if let Caller::OfRegular(frame, body) = caller {
            return Some((frame, body));
        }
    }
    None
}

/// A body ends before its end, and with it the plain functions that it is in.
pub fn ended(
    alloc: Global,
    callers: &mut Vec<Caller>,
    at: BodyEnd,
    body: Body,
    turns: u64,
) -> Result<Next, NoMemory>
    ensures { IfOk result (λ next. ended (callers_seen callers.old.items) at (body_seen body) turns ≡ next_seen next callers.new.items turns) }
{
    match at {
        BodyEnd::Spent => Ok(Next::Stops(spent(callers, body, turns))),
        BodyEnd::Done => interrupted(alloc, callers, at, body, turns),
        BodyEnd::Waits => interrupted(alloc, callers, at, body, turns),
        BodyEnd::Trap(_) => interrupted(alloc, callers, at, body, turns),
    }
}

/// The caller goes on where its body isn't spent.
#[tactic(auto, using(crate::proofs::Unwinding::goes_on))]
fn interrupted(
    alloc: Global,
    callers: &mut Vec<Caller>,
    at: BodyEnd,
    body: Body,
    turns: u64,
) -> Result<Next, NoMemory>
    requires { at ≢ end.Spent }
    ensures { IfOk result (λ next. ended (callers_seen callers.old.items) at (body_seen body) turns ≡ next_seen next callers.new.items turns) }
{
    match caller_of(callers) {
        Some((frame, outer)) => {
            let item = answer(alloc, at_stop(body.finish, at, body.result))?;
            resumed(frame, item, outer)
        }
        None => Ok(Next::Stops(stopped(at, body, turns))),
    }
}

/// Where a body is spent each of its callers is.
fn spent(callers: &mut Vec<Caller>, body: Body, turns: u64) -> Yield
    ensures { ended (callers_seen callers.old.items) end.Spent (body_seen body) turns ≡ Stops result }
{
    let mut inner = body;
    while let Some((_frame, outer)) = caller_of(callers) {
        inner = outer;
    }
    stopped(BodyEnd::Spent, inner, turns)
}

/// The newest caller.
fn newest(callers: &mut Vec<Caller>) -> Option<Caller>
    ensures { MatchOption result (callers_seen callers.old.items ≡ []) (λ caller. callers_seen callers.old.items ≡ caller_seen caller ∷ callers_seen callers.new.items) }
{
    callers.pop()
}

/// A body or a plain function comes to its end.
pub fn finished(
    alloc: Global,
    callers: &mut Vec<Caller>,
    body: Body,
    turns: u64,
) -> Result<Next, NoMemory>
    ensures { IfOk result (λ next. finished (callers_seen callers.old.items) (body_seen body) turns ≡ next_seen next callers.new.items turns) }
{
    match newest(callers) {
        Some(Caller::OfPlain(_, line, _)) => {
            let kind = TrapKind::NoReply;
            ended(
                alloc,
                callers,
                BodyEnd::Trap(Trap { kind, line }),
                body,
                turns,
            )
        }
        Some(Caller::OfRegular(frame, outer)) => {
            let item = answer(alloc, at_end(alloc, body.finish, body.result))?;
            resumed(frame, item, outer)
        }
        None => Ok(Next::Stops(done(alloc, body, turns))),
    }
}

/// A body or a plain function returns, with words or none.
pub fn returned(
    alloc: Global,
    words: WordList,
    callers: &mut Vec<Caller>,
    body: Body,
    turns: u64,
) -> Result<Next, NoMemory>
    ensures { IfOk result (λ next. returned (words_seen words) (callers_seen callers.old.items) (body_seen body) turns ≡ next_seen next callers.new.items turns) }
{
    match newest(callers) {
        Some(Caller::OfPlain(frame, _, is_bool)) => {
            resumed(frame, words.into_item(is_bool), body)
        }
        Some(Caller::OfRegular(frame, outer)) => {
            let item = answer(alloc, at_end(alloc, body.finish, body.result))?;
            resumed(frame, item, outer)
        }
        None => Ok(Next::Stops(done(alloc, body, turns))),
    }
}

ghost use Rattle.std.specs.Prelude.{◌≡◌, ◌↔◌, ◌+◌, ◌≤◌, ℕ, None, IfSome};
ghost use Rattle.mpl_mean.specs.Limits.{greatest_budget};
ghost use Rattle.mpl_value.specs.declared.body.BodyEnd.TheVariants.{Spent, Waits};
ghost use Rattle.mpl_value.specs.declared.body.Yield.{Yield};
ghost use Rattle.mentat_cmd.specs.Answer.{Answered, Answers, Ended, Ends, IsOfRun, IsSaid, IsStatusOf, IsWritten, LeavesOutput, Refuses, Says, Stops, shelf_of, stream};
ghost use Rattle.mentat_cmd.specs.Input.{input_of};
ghost use Rattle.mentat_cmd.specs.Internal.Ran.{fault_status};
ghost use Rattle.mentat_cmd.specs.Message as spec;
ghost use Rattle.mentat_cmd.specs.Message.{text_of};
ghost use Rattle.mentat_cmd.specs.Words.{command_of};

use crate::message::{Message, message_of};
use crate::output::{say, write_all};
use crate::run::{Rejection, run};
use crate::status::{Ending, Status};
use crate::words::command_of;
use mentat_input::InputFault;
use mentat_io::{Failed, Shelf, ShelfFault, Sink, Source, Text};
use mpl_value::{BodyEnd, NoMemory, Yield};
use std::alloc::Global;

/// The most bytes that a source may have.
const SOURCE_LIMIT: u32 = 1_048_576;

/// Does what the words say: `run FILE` runs the program in FILE and writes what it prints to `out`, within as many turns
/// as `--budget` behind the file says, or 1,000,000. The numbers that it takes by `input()` are those of `input`, which is
/// read before the run. How that ended is said on `err`, as far as it takes it.
pub fn quiet_command<F: Shelf, S: Source, K: Sink, E: Sink>(
    alloc: Global,
    words: &[Text],
    shelf: &mut F,
    input: &mut S,
    out: &mut K,
    err: &mut E,
) -> Ending
    // The words are not of the form of a command, and then no file is asked for.
    ensures usage { (result.status ≡ Status.Usage) ↔ (command_of words.now ≡ None) }
    ensures unread { command_of words.now ≡ None → shelf.new ≡ shelf.old }
    ensures idle { command_of words.now ≡ None → Stops (stream (E.written err.old) (E.written err.new) (E.faults err.old) (E.faults err.new)) Status.Usage result.turns }

    ensures unasked { command_of words.now ≡ None → input.new ≡ input.old }

    // Each other answer follows from the bytes that were read, of the file and of the input, and so does what was written.
    ensures answer { IfSome (command_of words.now) (λ c. Answered c.budget
        (shelf_of (F.files shelf.old) (F.sure shelf.old) (F.faults shelf.old) (F.faults shelf.new)) c.file
        (input_of (S.left input.old) (S.left input.new) (S.faults input.old) (S.faults input.new) (input.new ≡ input.old))
        (stream (K.written out.old) (K.written out.new) (K.faults out.old) (K.faults out.new))
        (stream (E.written err.old) (E.written err.new) (E.faults err.old) (E.faults err.new))
        result.status result.turns) }

    ensures unwritten { LeavesOutput result.status → out.new ≡ out.old }
    ensures silent { result.status ≡ Status.Done → err.new ≡ err.old }
{
    let Some(command) = command_of(words) else {
        return stop(&Message::Fixed("mentat: usage\n"), Status::Usage, err);
    };
    match shelf.read_file(alloc, command.file, SOURCE_LIMIT + 1) {
        Ok(bytes) => answer(alloc, bytes.as_slice(), command.budget, input, out, err),
        Err(ShelfFault::Failed) => stop(
            &Message::Fixed("mentat: read fault\n"),
            Status::ReadFault,
            err,
        ),
        Err(ShelfFault::NoMemory) => without_memory(err),
    }
}

// Nothing ran, and so is said.
fn stop<E: Sink>(message: &Message, status: Status, err: &mut E) -> Ending
    requires { text_of message.now ≡ spec.message status }
    ensures status { result.status ≡ status }
    ensures said { Stops (stream (E.written err.old) (E.written err.new) (E.faults err.old) (E.faults err.new)) status result.turns }
{
    tell(message, status, err);
    Ending { status, turns: 0 }
}

// What is said of a status, as far as the stream takes it.
fn tell<E: Sink>(message: &Message, status: Status, err: &mut E)
    requires { text_of message.now ≡ spec.message status }
    ensures { Says (stream (E.written err.old) (E.written err.new) (E.faults err.old) (E.faults err.new)) (spec.message status) }
{
    say(err, message.as_bytes());
}

fn without_memory<E: Sink>(err: &mut E) -> Ending
    ensures status { result.status ≡ Status.NoMemory }
    ensures said { Stops (stream (E.written err.old) (E.written err.new) (E.faults err.old) (E.faults err.new)) Status.NoMemory result.turns }
{
    stop(
        &Message::Fixed("mentat: no memory\n"),
        Status::NoMemory,
        err,
    )
}

// Nothing ran, and so is said, if there is memory for the message.
fn refuse<E: Sink>(alloc: Global, status: Status, err: &mut E) -> Ending
    ensures { Refuses (stream (E.written err.old) (E.written err.new) (E.faults err.old) (E.faults err.new)) status result.status result.turns }
{
    match message_of(alloc, status) {
        Ok(message) => stop(&message, status, err),
        Err(NoMemory) => without_memory(err),
    }
}

// Runs the program that the bytes are the source of, within the budget.
fn answer<S: Source, K: Sink, E: Sink>(
    alloc: Global,
    bytes: &[u8],
    budget: u64,
    input: &mut S,
    out: &mut K,
    err: &mut E,
) -> Ending
    requires { budget ≤ greatest_budget }
    ensures cause { Answers budget bytes.now
        (input_of (S.left input.old) (S.left input.new) (S.faults input.old) (S.faults input.new) (input.new ≡ input.old))
        (stream (K.written out.old) (K.written out.new) (K.faults out.old) (K.faults out.new))
        (stream (E.written err.old) (E.written err.new) (E.faults err.old) (E.faults err.new))
        result.status result.turns }
    ensures unwritten { LeavesOutput result.status → out.new ≡ out.old }
    ensures silent { result.status ≡ Status.Done → err.new ≡ err.old }
{
    if bytes.len() > SOURCE_LIMIT as usize {
        return stop(&Message::Fixed("mentat: too long\n"), Status::TooLong, err);
    }
    match run(alloc, bytes, budget, input) {
        Ok(done) => finish(alloc, &done, out, err),
        Err(Rejection::Refused(refusal)) => refuse(alloc, Status::Refused(refusal), err),
        Err(Rejection::Unbuilt(at)) => refuse(alloc, Status::Unbuilt(u64::from(at)), err),
        Err(Rejection::Input(fault)) => refuse(alloc, status_of_fault(fault), err),
        Err(Rejection::NoMemory) => without_memory(err),
    }
}

// What an input is answered by that gives no numbers.
fn status_of_fault(fault: InputFault) -> Status
    ensures { result ≡ fault_status fault }
{
    match fault {
        InputFault::ReadFault => Status::ReadFault,
        InputFault::TooLong => Status::TooLong,
        InputFault::BadInput(at) => Status::BadInput(at),
        InputFault::NoMemory => Status::NoMemory,
    }
}

// Writes what a run printed, if its turns didn't run out, and says how it ended.
fn finish<K: Sink, E: Sink>(alloc: Global, done: &Yield, out: &mut K, err: &mut E) -> Ending
    ensures ends { (budget : ℕ) → (done.now.end ≡ Spent → done.now.turns ≡ budget + 1) → Ended budget done.now
        (stream (K.written out.old) (K.written out.new) (K.faults out.old) (K.faults out.new))
        (stream (E.written err.old) (E.written err.new) (E.faults err.old) (E.faults err.new))
        result.status result.turns }
    ensures unwritten { LeavesOutput result.status → out.new ≡ out.old }
    ensures silent { result.status ≡ Status.Done → err.new ≡ err.old }
{
    match done.end {
        BodyEnd::Spent => {
            tell(&Message::Fixed("mentat: spent\n"), Status::Spent, err);
            Ending {
                status: Status::Spent,
                turns: done.turns,
            }
        }
        end => report(alloc, status_of(end), done, out, err),
    }
}

// Writes what a run printed, and says how it ended. The message is made before anything is written.
fn report<K: Sink, E: Sink>(
    alloc: Global,
    status: Status,
    done: &Yield,
    out: &mut K,
    err: &mut E,
) -> Ending
    requires status { IsStatusOf done.now.end status }
    requires run { IsOfRun status }
    ensures ends { (budget : ℕ) → Ended budget done.now
        (stream (K.written out.old) (K.written out.new) (K.faults out.old) (K.faults out.new))
        (stream (E.written err.old) (E.written err.new) (E.faults err.old) (E.faults err.new))
        result.status result.turns }
    ensures unwritten { LeavesOutput result.status → out.new ≡ out.old }
    ensures silent { result.status ≡ Status.Done → err.new ≡ err.old }
{
    match message_of(alloc, status) {
        Ok(message) => Ending {
            status: written(&message, status, done.lines.as_slice(), out, err),
            turns: done.turns,
        },
        Err(NoMemory) => without_memory(err),
    }
}

// The lines first, and then the message.
fn written<K: Sink, E: Sink>(
    message: &Message,
    status: Status,
    lines: &[u8],
    out: &mut K,
    err: &mut E,
) -> Status
    requires message { text_of message.now ≡ spec.message status }
    requires run { IsOfRun status }
    ensures ends { (budget : ℕ) (y : Yield) → IsStatusOf y.end status → y.lines ≡ lines.now → Ends budget y
        (stream (K.written out.old) (K.written out.new) (K.faults out.old) (K.faults out.new))
        (stream (E.written err.old) (E.written err.new) (E.faults err.old) (E.faults err.new))
        result }
    ensures written { LeavesOutput result → ⊥ }
    ensures silent { result ≡ Status.Done → err.new ≡ err.old }
{
    match write_all(out, lines) {
        Ok(()) => said(message, status, err),
        Err(Failed) => {
            tell(
                &Message::Fixed("mentat: write fault\n"),
                Status::WriteFault,
                err,
            );
            Status::WriteFault
        }
    }
}

// The message of a run, if there is one.
fn said<E: Sink>(message: &Message, status: Status, err: &mut E) -> Status
    requires message { text_of message.now ≡ spec.message status }
    requires run { IsOfRun status }
    ensures said { IsSaid (stream (E.written err.old) (E.written err.new) (E.faults err.old) (E.faults err.new)) status result }
    ensures silent { result ≡ Status.Done → err.new ≡ err.old }
{
    if status == Status::Done {
        return status;
    }
    match write_all(err, message.as_bytes()) {
        Ok(()) => status,
        Err(Failed) => Status::WriteFault,
    }
}

// The status of a run whose turns didn't run out.
fn status_of(end: BodyEnd) -> Status
    requires { IsWritten end }
    ensures status { IsStatusOf end result }
    ensures run { IsOfRun result }
{
    match end {
        BodyEnd::Done => Status::Done,
        BodyEnd::Trap(trap) => Status::Trap(trap),
        BodyEnd::Waits => Status::Stuck,
        BodyEnd::Spent => unreachable!(),
    }
}

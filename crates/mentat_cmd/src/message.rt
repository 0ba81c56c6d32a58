ghost use Rattle.std.specs.Prelude.{◌≡◌, IfOk, string_bytes};
ghost use Rattle.mentat_cmd.specs.Message as spec;

use crate::status::{Refusal, Status};
use mpl_value::{NoMemory, Trap, TrapKind};
use std::alloc::Global;

/// The line that says how a command ended. Where it names no place it takes no memory.
#[derive(Debug, Drop)]
pub enum Message {
    Fixed(&'static str),
    Made(String),
}

impl Message {
    pub fn as_bytes(&self) -> &[u8]
        ensures { result.now ≡ spec.text_of self.now }
    {
        match self {
            Message::Fixed(text) => text.as_bytes(),
            Message::Made(text) => text.as_bytes(),
        }
    }
}

/// What is said of a status.
pub fn message_of(alloc: Global, status: Status) -> Result<Message, NoMemory>
    ensures { IfOk result (λ m. spec.text_of m ≡ spec.message status) }
{
    Ok(match status {
        Status::Done => Message::Fixed(""),
        Status::Usage => Message::Fixed("mentat: usage\n"),
        Status::Refused(refusal) => Message::Made(refused(alloc, refusal)?),
        Status::Trap(trap) => Message::Made(trapped(alloc, trap)?),
        Status::Spent => Message::Fixed("mentat: spent\n"),
        Status::Stuck => Message::Fixed("mentat: stuck\n"),
        Status::ReadFault => Message::Fixed("mentat: read fault\n"),
        Status::WriteFault => Message::Fixed("mentat: write fault\n"),
        Status::BadInput(at) => Message::Made(format!(in alloc;
            "mentat: bad input at byte {at}\n"
        )?),
        Status::NoMemory => Message::Fixed("mentat: no memory\n"),
        Status::TooLong => Message::Fixed("mentat: too long\n"),
        Status::Unbuilt(at) => Message::Made(format!(in alloc; "mentat: unbuilt at byte {at}\n")?),
    })
}

fn trapped(alloc: Global, trap: Trap) -> Result<String, NoMemory>
    ensures { IfOk result (λ text. string_bytes text ≡ spec.trap_message trap) }
{
    let kind = kind_name(trap.kind);
    let line = trap.line;
    Ok(format!(in alloc; "mentat: trap {kind} at line {line}\n")?)
}

fn kind_name(kind: TrapKind) -> &'static str
    ensures { result.now ≡ spec.kind_name kind }
{
    match kind {
        TrapKind::Overflow => "Overflow",
        TrapKind::DivZero => "DivZero",
        TrapKind::Index => "Index",
        TrapKind::Unbound => "Unbound",
        TrapKind::NoInput => "NoInput",
        TrapKind::NoReply => "NoReply",
        TrapKind::Twice => "Twice",
    }
}

fn refused(alloc: Global, refusal: Refusal) -> Result<String, NoMemory>
    ensures { IfOk result (λ text. string_bytes text ≡ spec.refusal_message refusal) }
{
    match refusal {
        Refusal::BadByte(at) => refused_by(alloc, "BadByte", at),
        Refusal::WideNumber(at) => refused_by(alloc, "WideNumber", at),
        Refusal::OpenComment(at) => refused_by(alloc, "OpenComment", at),
        Refusal::Syntax(at) => refused_by(alloc, "Syntax", at),
        Refusal::TooDeep(at) => refused_by(alloc, "TooDeep", at),
        Refusal::Rule(rule, at) => {
            Ok(format!(in alloc; "mentat: refused rule {rule} at byte {at}\n")?)
        }
    }
}

fn refused_by(alloc: Global, fault: &str, at: u32) -> Result<String, NoMemory>
    ensures { IfOk result (λ text. string_bytes text ≡ spec.refused fault.now at) }
{
    Ok(format!(in alloc; "mentat: refused {fault} at byte {at}\n")?)
}

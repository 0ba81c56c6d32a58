use mdf_code::{CodeText, Instr, RawCode, Sizes};
use mpl_value::{Bytes, NoMemory};
use std::alloc::Global;

/// An instruction about one word, on line 1 where it names no other.
#[derive(Clone, Copy)]
pub enum Row {
    Push(i64),
    Load(u32),
    Store(u32),
    Fetch(u32),
    Keep(u32),
    Need(u32),
    Add,
    Sub,
    Div,
    Less,
    Jump(u32),
    JumpZero(u32),
    Test,
    ArgWords,
    Send(u32),
    Bound,
    Post(u32, u32),
    SetVariable(u32),
    DropFlow,
    Create,
    Reply,
    Print,
    End(u32),
}

fn instruction(alloc: Global, row: Row) -> Result<Instr, NoMemory> {
    let instruction = match row {
        Row::Push(word) => Instr::Push(word),
        Row::Load(variable) => Instr::Load(variable, 0, 1),
        Row::Store(variable) => Instr::Store(variable, 0, 1),
        Row::Fetch(offset) => Instr::Fetch(offset, 1),
        Row::Keep(offset) => Instr::Keep(offset, 1),
        Row::Need(variable) => Instr::Need(variable),
        Row::Add => Instr::Add(1),
        Row::Sub => Instr::Sub(1),
        Row::Div => Instr::Div(1),
        Row::Less => Instr::Less,
        Row::Jump(place) => Instr::Jump(place),
        Row::JumpZero(place) => Instr::JumpZero(place),
        Row::Test => Instr::Test,
        Row::ArgWords => Instr::ArgWords(1),
        Row::Send(member) => Instr::Send(member, 1),
        Row::Bound => Instr::Bound(1),
        Row::Post(member, count) => Instr::Post(member, count),
        Row::SetVariable(variable) => Instr::SetVariable(variable),
        Row::DropFlow => Instr::DropFlow,
        Row::Create => Instr::Create(0),
        Row::Reply => Instr::Reply(1),
        Row::Print => Instr::Print(Bytes::from_slice(alloc, b"i")?),
        Row::End(line) => Instr::End(line),
    };
    Ok(instruction)
}

pub fn text(alloc: Global, rows: &[Row]) -> Result<CodeText, NoMemory> {
    let mut text = CodeText::new(alloc);
    for row in rows {
        text.push(instruction(alloc, *row)?)?;
    }
    Ok(text)
}

/// A code with variables of one word each.
pub fn code(alloc: Global, variables: u32, rows: &[Row]) -> Result<RawCode, NoMemory> {
    let mut vars = Sizes::new(alloc);
    for _variable in 0..variables {
        vars.push(1)?;
    }
    let code = text(alloc, rows)?;
    Ok(RawCode { vars, code })
}

ghost use Rattle.std.specs.Prelude.{◌≡◌, ◌++◌, map, pos, IfOk, OnOk};
ghost use Rattle.std.specs.List.{flat_map};
ghost use Rattle.mdf_code.specs.Listing.{guard_of, line_of, letters_of, lines_of, listing_of, name_of, operands_of, operand_text};

use crate::image::Image;
use crate::instr::Instr;
use mpl_value::{Bytes, NoMemory, Words};
use std::alloc::Global;

/// The instructions of an image, each on a line of its own: those of the plain functions, of the members, of the guards and
/// of `main`.
pub fn listing(alloc: Global, image: &Image) -> Result<Bytes, NoMemory>
    ensures { IfOk result (λ text. text ≡ listing_of image.now) }
{
    let raw = image.raw();
    let mut text = Bytes::new(alloc);
    for function in raw.functions.as_slice() {
        list_code(alloc, function.body.code.as_slice(), &mut text)?;
    }
    for member in raw.members.as_slice() {
        list_code(alloc, member.body.code.as_slice(), &mut text)?;
    }
    for entry in raw.entries.as_slice() {
        if let Some(guard) = &entry.guard {
            list_code(alloc, guard.as_slice(), &mut text)?;
        }
    }
    list_code(alloc, raw.main.code.as_slice(), &mut text)?;
    Ok(text)
}

fn list_code(alloc: Global, code: &[Instr], text: &mut Bytes) -> Result<(), NoMemory>
    ensures { OnOk result (text.new ≡ text.old ++ lines_of code.now) }
{
    for instruction in code {
        list_instr(alloc, instruction, text)?;
    }
    Ok(())
}

fn list_instr(alloc: Global, instruction: &Instr, text: &mut Bytes) -> Result<(), NoMemory>
    ensures { OnOk result (text.new ≡ text.old ++ line_of instruction.now) }
{
    text.extend(name(instruction).as_bytes())?;
    let operands = operands(alloc, instruction)?;
    for operand in operands.as_slice() {
        list_operand(alloc, *operand, text)?;
    }
    list_letters(instruction, text)?;
    text.push(b'\n')
}

fn list_operand(alloc: Global, operand: i64, text: &mut Bytes) -> Result<(), NoMemory>
    ensures { OnOk result (text.new ≡ text.old ++ operand_text operand) }
{
    text.push(b' ')?;
    let decimal = operand.to_string(alloc)?;
    text.extend(decimal.as_bytes())
}

fn list_letters(instruction: &Instr, text: &mut Bytes) -> Result<(), NoMemory>
    ensures { OnOk result (text.new ≡ text.old ++ letters_of instruction.now) }
{
    match instruction {
        Instr::Print(letters) => {
            text.push(b' ')?;
            text.extend(letters.as_slice())
        }
        _ => Ok(()),
    }
}

fn name(instruction: &Instr) -> &'static str
    ensures { result.now ≡ name_of instruction.now }
{
    match instruction {
        Instr::Push(_) => "push",
        Instr::Drop(_) => "drop",
        Instr::Load(_, _, _) => "load",
        Instr::Store(_, _, _) => "store",
        Instr::LoadIndexed(_, _, _, _) => "loadx",
        Instr::StoreIndexed(_, _, _, _) => "storex",
        Instr::Zero(_) => "zero",
        Instr::Copy(_, _) => "copy",
        Instr::Need(_) => "need",
        Instr::Fetch(_, _) => "fetch",
        Instr::Keep(_, _) => "keep",
        Instr::FetchIndexed(_, _, _) => "fetchx",
        Instr::KeepIndexed(_, _, _) => "keepx",
        Instr::Add(_) => "add",
        Instr::Sub(_) => "sub",
        Instr::Mul(_) => "mul",
        Instr::Div(_) => "div",
        Instr::Rem(_) => "rem",
        Instr::Neg(_) => "neg",
        Instr::Not => "not",
        Instr::Equal => "eq",
        Instr::NotEqual => "ne",
        Instr::Less => "lt",
        Instr::LessEqual => "le",
        Instr::Greater => "gt",
        Instr::GreaterEqual => "ge",
        Instr::Jump(_) => "jump",
        Instr::JumpZero(_) => "jumpz",
        Instr::Test => "test",
        Instr::Call(_) => "call",
        Instr::Return(_) => "ret",
        Instr::Own => "self",
        Instr::Bound(_) => "bound",
        Instr::ArgWords(_) => "argw",
        Instr::ArgVariable(_) => "argv",
        Instr::Send(_, _) => "send",
        Instr::Post(_, _) => "post",
        Instr::SetVariable(_) => "setv",
        Instr::DropFlow => "dropf",
        Instr::Force => "force",
        Instr::Create(_) => "create",
        Instr::Reply(_) => "reply",
        Instr::Input(_) => "input",
        Instr::Print(_) => "print",
        Instr::End(_) => "end",
        Instr::Fail(_) => "fail",
    }
}

fn words(alloc: Global, operands: &[u32]) -> Result<Words, NoMemory>
    ensures { IfOk result (λ words. words ≡ map (λ n. pos n) operands.now) }
{
    let mut words = Words::new(alloc);
    for operand in operands {
        words.push(i64::from(*operand))?;
    }
    Ok(words)
}

fn operands(alloc: Global, instruction: &Instr) -> Result<Words, NoMemory>
    ensures { IfOk result (λ words. words ≡ operands_of instruction.now) }
{
    match instruction {
        Instr::Push(word) => Words::from_slice(alloc, &[*word]),
        Instr::Drop(count) => words(alloc, &[*count]),
        Instr::Load(variable, offset, count) => words(alloc, &[*variable, *offset, *count]),
        Instr::Store(variable, offset, count) => words(alloc, &[*variable, *offset, *count]),
        Instr::LoadIndexed(variable, offset, count, line) => words(
            alloc,
            &[*variable, *offset, *count, *line],
        ),
        Instr::StoreIndexed(variable, offset, count, line) => words(
            alloc,
            &[*variable, *offset, *count, *line],
        ),
        Instr::Zero(variable) => words(alloc, &[*variable]),
        Instr::Copy(variable, source) => words(alloc, &[*variable, *source]),
        Instr::Need(variable) => words(alloc, &[*variable]),
        Instr::Fetch(offset, count) => words(alloc, &[*offset, *count]),
        Instr::Keep(offset, count) => words(alloc, &[*offset, *count]),
        Instr::FetchIndexed(offset, count, line) => words(alloc, &[*offset, *count, *line]),
        Instr::KeepIndexed(offset, count, line) => words(alloc, &[*offset, *count, *line]),
        Instr::Add(line) => words(alloc, &[*line]),
        Instr::Sub(line) => words(alloc, &[*line]),
        Instr::Mul(line) => words(alloc, &[*line]),
        Instr::Div(line) => words(alloc, &[*line]),
        Instr::Rem(line) => words(alloc, &[*line]),
        Instr::Neg(line) => words(alloc, &[*line]),
        Instr::Jump(place) => words(alloc, &[*place]),
        Instr::JumpZero(place) => words(alloc, &[*place]),
        Instr::Call(function) => words(alloc, &[*function]),
        Instr::Return(count) => words(alloc, &[*count]),
        Instr::Bound(line) => words(alloc, &[*line]),
        Instr::ArgWords(count) => words(alloc, &[*count]),
        Instr::ArgVariable(variable) => words(alloc, &[*variable]),
        Instr::Send(member, count) => words(alloc, &[*member, *count]),
        Instr::Post(member, count) => words(alloc, &[*member, *count]),
        Instr::SetVariable(variable) => words(alloc, &[*variable]),
        Instr::Create(class) => words(alloc, &[*class]),
        Instr::Reply(line) => words(alloc, &[*line]),
        Instr::Input(line) => words(alloc, &[*line]),
        Instr::End(line) => words(alloc, &[*line]),
        Instr::Fail(line) => words(alloc, &[*line]),
        _ => Ok(Words::new(alloc)),
    }
}

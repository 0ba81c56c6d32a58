ghost use Rattle.std.specs.Prelude.{◌≡◌, IfOk};
ghost use Rattle.std.specs.List.{list_all};
ghost use Rattle.mdf_code.specs.Images.{is_class, is_code, is_entry, is_function, is_guard_from, is_image, is_letter, is_member, letters_fit, result_fits, stands_in_guard, words_fit};

use crate::instr::Instr;
use crate::loops::loops_pass;
use crate::raw::{RawClass, RawCode, RawEntry, RawFunction, RawImage, RawMember};
use mpl_value::NoMemory;
use std::alloc::Global;

const MOST_WORDS: u32 = 1024;

const MOST_FORMALS: u32 = 16;

/// Whether these parts are an image.
pub fn is_sound(alloc: Global, raw: &RawImage) -> Result<bool, NoMemory>
    ensures { IfOk result (λ sound. sound ≡ is_image raw.now) }
{
    let shapes = classes_fit(raw.classes.as_slice()) && entries_fit(raw.entries.as_slice());
    if !shapes {
        return Ok(false);
    }
    if !functions_fit(alloc, raw.functions.as_slice())? {
        return Ok(false);
    }
    if !members_fit(alloc, raw.members.as_slice())? {
        return Ok(false);
    }
    code_fits(alloc, &raw.main)
}

fn classes_fit(classes: &[RawClass]) -> bool
    ensures { result ≡ list_all is_class classes.now }
{
    classes.iter().all(|class| class.words <= MOST_WORDS)
}

fn functions_fit(alloc: Global, functions: &[RawFunction]) -> Result<bool, NoMemory>
    ensures { IfOk result (λ fit. fit ≡ list_all is_function functions.now) }
{
    for function in functions {
        if !function_fits(alloc, function)? {
            return Ok(false);
        }
    }
    Ok(true)
}

fn members_fit(alloc: Global, members: &[RawMember]) -> Result<bool, NoMemory>
    ensures { IfOk result (λ fit. fit ≡ list_all is_member members.now) }
{
    for member in members {
        if !member_fits(alloc, member)? {
            return Ok(false);
        }
    }
    Ok(true)
}

fn entries_fit(entries: &[RawEntry]) -> bool
    ensures { result ≡ list_all is_entry entries.now }
{
    entries.iter().all(|entry| entry_fits(entry))
}

fn function_fits(alloc: Global, function: &RawFunction) -> Result<bool, NoMemory>
    ensures { IfOk result (λ fits. fits ≡ is_function function.now) }
{
    if function.formals as usize > function.body.vars.len() {
        return Ok(false);
    }
    code_fits(alloc, &function.body)
}

fn member_fits(alloc: Global, member: &RawMember) -> Result<bool, NoMemory>
    ensures { IfOk result (λ fits. fits ≡ is_member member.now) }
{
    if member.formals as usize > member.body.vars.len() || member.formals > MOST_FORMALS {
        return Ok(false);
    }
    if !result_is_short(member.result) {
        return Ok(false);
    }
    code_fits(alloc, &member.body)
}

fn result_is_short(words: Option<u32>) -> bool
    ensures { result ≡ result_fits words }
{
    match words {
        None => true,
        Some(words) => words <= MOST_WORDS,
    }
}

fn code_fits(alloc: Global, body: &RawCode) -> Result<bool, NoMemory>
    ensures { IfOk result (λ fits. fits ≡ is_code body.now) }
{
    if !variables_fit(body.vars.as_slice()) || !lines_fit(body.code.as_slice()) {
        return Ok(false);
    }
    loops_pass(alloc, body.code.as_slice())
}

fn variables_fit(sizes: &[u32]) -> bool
    ensures { result ≡ list_all words_fit sizes.now }
{
    sizes.iter().all(|words| *words <= MOST_WORDS)
}

fn lines_fit(code: &[Instr]) -> bool
    ensures { result ≡ list_all letters_fit code.now }
{
    code.iter().all(|instruction| line_fits(instruction))
}

fn line_fits(instruction: &Instr) -> bool
    ensures { result ≡ letters_fit instruction.now }
{
    match instruction {
        Instr::Print(letters) => !letters.is_empty() && are_letters(letters.as_slice()),
        _ => true,
    }
}

fn are_letters(letters: &[u8]) -> bool
    ensures { result ≡ list_all is_letter letters.now }
{
    letters
        .iter()
        .all(|letter| *letter == b'i' || *letter == b'b')
}

fn entry_fits(entry: &RawEntry) -> bool
    ensures { result ≡ is_entry entry.now }
{
    match &entry.guard {
        None => true,
        Some(guard) => is_guard(guard.as_slice()),
    }
}

fn is_guard(guard: &[Instr]) -> bool
    ensures { result ≡ is_guard_from 0 guard.now }
{
    for (place, instruction) in guard.iter().enumerate() {
        if !may_stand(place, instruction) {
            return false;
        }
    }
    true
}

/// Whether an instruction may stand at a place of a guard.
fn may_stand(place: usize, instruction: &Instr) -> bool
    ensures { result ≡ stands_in_guard place instruction.now }
{
    match instruction {
        Instr::Push(_)
        | Instr::Drop(_)
        | Instr::Load(_, _, _)
        | Instr::LoadIndexed(_, _, _, _)
        | Instr::Fetch(_, _)
        | Instr::FetchIndexed(_, _, _)
        | Instr::Add(_)
        | Instr::Sub(_)
        | Instr::Mul(_)
        | Instr::Div(_)
        | Instr::Rem(_)
        | Instr::Neg(_)
        | Instr::Not
        | Instr::Equal
        | Instr::NotEqual
        | Instr::Less
        | Instr::LessEqual
        | Instr::Greater
        | Instr::GreaterEqual => true,
        Instr::Jump(target) | Instr::JumpZero(target) => place < *target as usize,
        _ => false,
    }
}

//! Instructions as they are written.

ghost use Rattle.std.specs.Prelude.{◌≡◌};
ghost use Rattle.mpl_gen_expr.specs.Drafts.{InstrFits, drafted};

use mdf_code::Instr;

/// An instruction, whose numbers of variables, words and places may still be too great for its image.
#[derive(Drop)]
pub enum Draft {
    /// One whose numbers are small.
    Small(Instr),
    /// Words of a variable: variable, offset, count.
    Load(usize, usize, usize),
    /// Words into a variable: variable, offset, count.
    Store(usize, usize, usize),
    /// A word of an array in a variable: variable, offset, dimension, line.
    LoadIndexed(usize, usize, usize, u32),
    /// A word into an array in a variable: variable, offset, dimension, line.
    StoreIndexed(usize, usize, usize, u32),
    Zero(usize),
    Need(usize),
    /// Words of the object's state: offset, count.
    Fetch(usize, usize),
    /// Words into the object's state: offset, count.
    Keep(usize, usize),
    /// A word of an array in the state: offset, dimension, line.
    FetchIndexed(usize, usize, u32),
    /// A word into an array in the state: offset, dimension, line.
    KeepIndexed(usize, usize, u32),
    Jump(usize),
    JumpZero(usize),
    Return(usize),
    ArgWords(usize),
    ArgVariable(usize),
    /// Member, count of arguments.
    Send(u32, usize),
    /// Member, count of arguments.
    Post(u32, usize),
    SetVariable(usize),
}

/// The instruction, with numbers of 32 bits.
pub fn encoded(draft: Draft) -> Instr
    requires { InstrFits (drafted draft) }
    ensures { result ≡ drafted draft }
{
    match draft {
        Draft::Small(instruction) => instruction,
        Draft::Load(variable, offset, words) => {
            Instr::Load(variable as u32, offset as u32, words as u32)
        }
        Draft::Store(variable, offset, words) => {
            Instr::Store(variable as u32, offset as u32, words as u32)
        }
        Draft::LoadIndexed(variable, offset, words, line) => {
            Instr::LoadIndexed(variable as u32, offset as u32, words as u32, line)
        }
        Draft::StoreIndexed(variable, offset, words, line) => {
            Instr::StoreIndexed(variable as u32, offset as u32, words as u32, line)
        }
        Draft::Zero(variable) => Instr::Zero(variable as u32),
        Draft::Need(variable) => Instr::Need(variable as u32),
        Draft::Fetch(offset, words) => Instr::Fetch(offset as u32, words as u32),
        Draft::Keep(offset, words) => Instr::Keep(offset as u32, words as u32),
        Draft::FetchIndexed(offset, words, line) => {
            Instr::FetchIndexed(offset as u32, words as u32, line)
        }
        Draft::KeepIndexed(offset, words, line) => {
            Instr::KeepIndexed(offset as u32, words as u32, line)
        }
        Draft::Jump(place) => Instr::Jump(place as u32),
        Draft::JumpZero(place) => Instr::JumpZero(place as u32),
        Draft::Return(words) => Instr::Return(words as u32),
        Draft::ArgWords(words) => Instr::ArgWords(words as u32),
        Draft::ArgVariable(variable) => Instr::ArgVariable(variable as u32),
        Draft::Send(member, count) => Instr::Send(member, count as u32),
        Draft::Post(member, count) => Instr::Post(member, count as u32),
        Draft::SetVariable(variable) => Instr::SetVariable(variable as u32),
    }
}

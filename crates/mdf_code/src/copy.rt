ghost use Rattle.std.specs.Prelude.{◌≡◌, IfOk};

use crate::instr::Instr;
use crate::raw::{RawClass, RawCode, RawEntry, RawFunction, RawImage, RawMember};
use mpl_value::{Listed, NoMemory};

/// What has copies.
pub trait Copied: Drop {
    /// One of its own that equals it.
    fn copied(&self) -> Result<Self, NoMemory>
        ensures { IfOk result (λ copy. copy ≡ self.now) };
}

fn copied_list<T: Copied>(list: &Listed<T>) -> Result<Listed<T>, NoMemory>
    ensures { IfOk result (λ copy. copy ≡ list.now) }
{
    let mut copy = Listed::new(list.allocator());
    for item in list.as_slice() {
        copy.push(item.copied()?)?;
    }
    Ok(copy)
}

impl Copied for Instr {
    fn copied(&self) -> Result<Instr, NoMemory> {
        match self {
            Instr::Push(word) => Ok(Instr::Push(*word)),
            Instr::Drop(count) => Ok(Instr::Drop(*count)),
            Instr::Load(variable, offset, count) => Ok(Instr::Load(*variable, *offset, *count)),
            Instr::Store(variable, offset, count) => Ok(Instr::Store(*variable, *offset, *count)),
            Instr::LoadIndexed(variable, offset, count, line) => Ok(Instr::LoadIndexed(
                *variable, *offset, *count, *line,
            )),
            Instr::StoreIndexed(variable, offset, count, line) => Ok(Instr::StoreIndexed(
                *variable, *offset, *count, *line,
            )),
            Instr::Zero(variable) => Ok(Instr::Zero(*variable)),
            Instr::Copy(variable, source) => Ok(Instr::Copy(*variable, *source)),
            Instr::Need(variable) => Ok(Instr::Need(*variable)),
            Instr::Fetch(offset, count) => Ok(Instr::Fetch(*offset, *count)),
            Instr::Keep(offset, count) => Ok(Instr::Keep(*offset, *count)),
            Instr::FetchIndexed(offset, count, line) => Ok(Instr::FetchIndexed(
                *offset, *count, *line,
            )),
            Instr::KeepIndexed(offset, count, line) => Ok(Instr::KeepIndexed(
                *offset, *count, *line,
            )),
            Instr::Add(line) => Ok(Instr::Add(*line)),
            Instr::Sub(line) => Ok(Instr::Sub(*line)),
            Instr::Mul(line) => Ok(Instr::Mul(*line)),
            Instr::Div(line) => Ok(Instr::Div(*line)),
            Instr::Rem(line) => Ok(Instr::Rem(*line)),
            Instr::Neg(line) => Ok(Instr::Neg(*line)),
            Instr::Not => Ok(Instr::Not),
            Instr::Equal => Ok(Instr::Equal),
            Instr::NotEqual => Ok(Instr::NotEqual),
            Instr::Less => Ok(Instr::Less),
            Instr::LessEqual => Ok(Instr::LessEqual),
            Instr::Greater => Ok(Instr::Greater),
            Instr::GreaterEqual => Ok(Instr::GreaterEqual),
            Instr::Jump(place) => Ok(Instr::Jump(*place)),
            Instr::JumpZero(place) => Ok(Instr::JumpZero(*place)),
            Instr::Test => Ok(Instr::Test),
            Instr::Call(function) => Ok(Instr::Call(*function)),
            Instr::Return(count) => Ok(Instr::Return(*count)),
            Instr::Own => Ok(Instr::Own),
            Instr::Bound(line) => Ok(Instr::Bound(*line)),
            Instr::ArgWords(count) => Ok(Instr::ArgWords(*count)),
            Instr::ArgVariable(variable) => Ok(Instr::ArgVariable(*variable)),
            Instr::Send(member, count) => Ok(Instr::Send(*member, *count)),
            Instr::Post(member, count) => Ok(Instr::Post(*member, *count)),
            Instr::SetVariable(variable) => Ok(Instr::SetVariable(*variable)),
            Instr::DropFlow => Ok(Instr::DropFlow),
            Instr::Force => Ok(Instr::Force),
            Instr::Create(class) => Ok(Instr::Create(*class)),
            Instr::Reply(line) => Ok(Instr::Reply(*line)),
            Instr::Input(line) => Ok(Instr::Input(*line)),
            Instr::Print(letters) => Ok(Instr::Print(letters.copy()?)),
            Instr::End(line) => Ok(Instr::End(*line)),
            Instr::Fail(line) => Ok(Instr::Fail(*line)),
        }
    }
}

impl Copied for RawCode {
    fn copied(&self) -> Result<RawCode, NoMemory> {
        let vars = self.vars.copy()?;
        let code = copied_list(&self.code)?;
        Ok(RawCode { vars, code })
    }
}

impl Copied for RawFunction {
    fn copied(&self) -> Result<RawFunction, NoMemory> {
        let body = self.body.copied()?;
        Ok(RawFunction {
            formals: self.formals,
            result: self.result,
            body,
        })
    }
}

impl Copied for RawClass {
    fn copied(&self) -> Result<RawClass, NoMemory> {
        Ok(*self)
    }
}

impl Copied for RawMember {
    fn copied(&self) -> Result<RawMember, NoMemory> {
        let body = self.body.copied()?;
        Ok(RawMember {
            class: self.class,
            formals: self.formals,
            result: self.result,
            body,
        })
    }
}

fn copied_guard(guard: &Option<Listed<Instr>>) -> Result<Option<Listed<Instr>>, NoMemory>
    ensures { IfOk result (λ copy. copy ≡ guard.now) }
{
    match guard {
        None => Ok(None),
        Some(code) => Ok(Some(copied_list(code)?)),
    }
}

impl Copied for RawEntry {
    fn copied(&self) -> Result<RawEntry, NoMemory> {
        let guard = copied_guard(&self.guard)?;
        Ok(RawEntry {
            class: self.class,
            priority: self.priority,
            member: self.member,
            guard,
        })
    }
}

impl Copied for RawImage {
    fn copied(&self) -> Result<RawImage, NoMemory> {
        let functions = copied_list(&self.functions)?;
        let classes = copied_list(&self.classes)?;
        let members = copied_list(&self.members)?;
        let entries = copied_list(&self.entries)?;
        let main = self.main.copied()?;
        Ok(RawImage {
            functions,
            classes,
            members,
            entries,
            main,
        })
    }
}

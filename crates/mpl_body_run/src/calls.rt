ghost use Rattle.std.specs.Prelude.{◌≡◌, ◌<◌, ◌≤◌, ◌-◌, ◌^◌, ◌∷◌, List, length, IfOk, OnOk};
ghost use Rattle.mpl_value.specs.CallAnswers.{arg_of_reply};
ghost use Rattle.mpl_body_code.specs.Machine as code;
ghost use Rattle.mpl_body_code.specs.Machine.{Item, item_of};
ghost use Rattle.mpl_body_code.specs.Steps.{begins_plain, begins_regular, begun, body_begun, calls_object, onward, performs, replies, reply_to};
ghost use Rattle.mpl_body_code.specs.declared.instruction.Instruction.TheVariants as instruction;
ghost use Rattle.mpl_body_run.specs.Seen.{Came, body_seen, caller_seen, callers_seen, frame_seen, machine_seen};
ghost use Rattle.mpl_body_run.specs.SeenItems.{item_seen};
ghost use Rattle.mpl_body_run.specs.SeenSetting.{setting_seen};

use crate::arguments::{Arguments, listed, take_arguments};
use crate::leaves::Leaves;
use crate::machine::{Body, Caller, Frame, Input, Machine};
use crate::perform::first_word;
use crate::setting::Setting;
use crate::stack::{Holds, Slots, Stack};
use crate::word_list::as_item;
use mpl_body_code::{Finish, FunctionCode, MemberCode};
use mpl_value::{BodyEnd, BodyResult, Bytes, CallMade, Calls, Known, MemberId, NoMemory, Words};
use std::alloc::Global;
use std::mem;

impl Machine {
    /// A plain function is called.
    #[inline(never)]
    pub fn call_plain(
        &mut self,
        setting: &Setting,
        function: usize,
        count: usize,
    ) -> Result<(), Leaves>
        requires within { self.old.frame.place < 2 ^ 64 - 1 }
        requires turns { self.old.turns < 2 ^ 64 - 1 }
        ensures { Came (performs (setting_seen setting.now) (instruction.CallPlain function count) (machine_seen self.old)) (machine_seen self.new) result }
    {
        match setting.image.functions.get(function) {
            Some(code) => {
                let arguments = take_arguments(setting.alloc, &mut self.frame.stack, count)?;
                self.begin_plain(setting, *code, arguments.into_slots())
            }
            None => Err(Leaves::Ends(BodyEnd::Waits)),
        }
    }

    /// It begins, and the frame goes on behind its call.
    fn begin_plain(
        &mut self,
        setting: &Setting,
        code: FunctionCode,
        slots: Slots,
    ) -> Result<(), Leaves>
        requires within { self.old.frame.place < 2 ^ 64 - 1 }
        requires turns { self.old.turns < 2 ^ 64 - 1 }
        ensures { Came (begins_plain (setting_seen setting.now) (machine_seen self.old) code slots self.old.frame.stack) (machine_seen self.new) result }
    {
        self.turns += 1;
        if self.turns <= setting.budget {
            let frame = begun(setting.alloc, code.entry, slots);
            self.frame.place += 1;
            let caller = mem::replace(&mut self.frame, frame);
            keep(
                &mut self.callers,
                Caller::OfPlain(caller, code.line, code.is_bool),
            )?;
            Ok(())
        } else {
            Err(Leaves::Ends(BodyEnd::Spent))
        }
    }

    /// A member of a regular class is called.
    #[inline(never)]
    pub fn call_regular(
        &mut self,
        setting: &Setting,
        member: usize,
        count: usize,
    ) -> Result<(), Leaves>
        requires within { self.old.frame.place < 2 ^ 64 - 1 }
        requires turns { self.old.turns < 2 ^ 64 - 2 }
        ensures { Came (performs (setting_seen setting.now) (instruction.CallRegular member count) (machine_seen self.old)) (machine_seen self.new) result }
    {
        match setting.image.members.get(member) {
            Some(code) => {
                let arguments = take_arguments(setting.alloc, &mut self.frame.stack, count)?;
                self.turns += 1;
                if self.turns <= setting.budget {
                    match arguments.decided() {
                        Some(item) => self.onward(item),
                        None => self.begin_regular(setting, *code, arguments.into_slots()),
                    }
                } else {
                    Err(Leaves::Ends(BodyEnd::Spent))
                }
            }
            None => Err(Leaves::Ends(BodyEnd::Waits)),
        }
    }

    /// Its body begins, and the frame goes on behind its call.
    fn begin_regular(
        &mut self,
        setting: &Setting,
        code: MemberCode,
        slots: Slots,
    ) -> Result<(), Leaves>
        requires within { self.old.frame.place < 2 ^ 64 - 1 }
        requires turns { self.old.turns < 2 ^ 64 - 1 }
        ensures { Came (begins_regular (setting_seen setting.now) (machine_seen self.old) code slots self.old.frame.stack) (machine_seen self.new) result }
    {
        self.turns += 1;
        if self.turns <= setting.budget {
            let frame = begun(setting.alloc, code.entry, slots);
            let body = body_begun(setting.alloc, code.finish);
            self.frame.place += 1;
            let caller = mem::replace(&mut self.frame, frame);
            let outer = mem::replace(&mut self.body, body);
            keep(&mut self.callers, Caller::OfRegular(caller, outer))?;
            Ok(())
        } else {
            Err(Leaves::Ends(BodyEnd::Spent))
        }
    }

    /// A member is called on the object below its arguments.
    #[inline(never)]
    pub fn call_object(
        &mut self,
        setting: &Setting,
        member: u32,
        count: usize,
    ) -> Result<(), Leaves>
        requires within { self.old.frame.place < 2 ^ 64 - 1 }
        requires turns { self.old.turns < 2 ^ 64 - 1 }
        requires few { length self.old.body.calls < 2 ^ 32 - 1 }
        ensures { Came (performs (setting_seen setting.now) (instruction.CallObject member count) (machine_seen self.old)) (machine_seen self.new) result }
    {
        let arguments = take_arguments(setting.alloc, &mut self.frame.stack, count)?;
        match self.frame.stack.pop() {
            Some(Holds::Word(object, _)) => self.call_member(setting, member, arguments, object),
            Some(Holds::Words(words, _)) => {
                let object = first_word(words.as_ref());
                self.call_member(setting, member, arguments, object)
            }
            Some(Holds::Trapped(_)) => Err(Leaves::Ends(BodyEnd::Waits)),
            Some(Holds::Unknown) => Err(Leaves::Ends(BodyEnd::Waits)),
            None => Err(Leaves::Ends(BodyEnd::Waits)),
        }
    }

    /// The call is written down, and its arguments or its reply answer it.
    fn call_member(
        &mut self,
        setting: &Setting,
        member: u32,
        arguments: Arguments,
        object: i64,
    ) -> Result<(), Leaves>
        requires within { self.old.frame.place < 2 ^ 64 - 1 }
        requires turns { self.old.turns < 2 ^ 64 - 1 }
        requires few { length self.old.body.calls < 2 ^ 32 - 1 }
        ensures { Came (calls_object (setting_seen setting.now) (machine_seen self.old) member arguments object self.old.frame.stack) (machine_seen self.new) result }
    {
        self.turns += 1;
        if self.turns <= setting.budget {
            let call = self.body.calls.len() as u32 + 1;
            let item = answer(setting, &arguments, self.body.answered, call)?;
            let args = listed(setting.alloc, arguments.into_slots())?;
            let member = MemberId(member);
            self.body.calls.push(CallMade {
                call,
                object,
                member,
                args,
            })?;
            self.onward(item)
        } else {
            Err(Leaves::Ends(BodyEnd::Spent))
        }
    }
}

/// What answers a call: its arguments, or else its reply.
fn answer(
    setting: &Setting,
    arguments: &Arguments,
    is_answered: bool,
    call: u32,
) -> Result<Holds, NoMemory>
    ensures { IfOk result (λ item. (x : code.Machine) (below : List Item) → x.body.answered ≡ is_answered → replies (setting_seen setting.now) x call arguments.now below ≡ onward x (item_seen item ∷ below)) }
{
    match arguments.decided() {
        Some(item) => Ok(item),
        None => reply(setting, is_answered, call),
    }
}

/// The reply to a call of a body whose calls are answered.
fn reply(setting: &Setting, is_answered: bool, call: u32) -> Result<Holds, NoMemory>
    ensures { IfOk result (λ item. (body : code.Body) → body.answered ≡ is_answered → item_seen item ≡ item_of (arg_of_reply (reply_to (setting_seen setting.now) body call))) }
{
    if !is_answered {
        return Ok(Holds::Unknown);
    }
    match setting.replies.get(call) {
        Some(Known::Value(words)) => as_item(setting.alloc, words.copy()?, false),
        Some(Known::Trapped(trap)) => Ok(Holds::Trapped(*trap)),
        None => Ok(Holds::Unknown),
    }
}

/// A caller that waits.
fn keep(callers: &mut Vec<Caller>, caller: Caller) -> Result<(), NoMemory>
    ensures { OnOk result (callers_seen callers.new.items ≡ caller_seen caller ∷ callers_seen callers.old.items) }
{
    callers.push(caller)?;
    Ok(())
}

/// The frame of a body that begins.
fn begun(alloc: Global, entry: usize, slots: Slots) -> Frame
    ensures { frame_seen result ≡ begun entry slots }
{
    Frame {
        place: entry,
        stack: Stack::new(alloc),
        slots,
        object: 0,
        number: 0,
    }
}

/// The body of a regular member, of which nothing is done yet.
pub fn body_begun(alloc: Global, finish: Finish) -> Body
    ensures { body_seen result ≡ body_begun finish }
{
    Body {
        state: Words::new(alloc),
        lines: Bytes::new(alloc),
        input: Input::new(Words::new(alloc)),
        calls: Calls::new(alloc),
        creations: Words::new(alloc),
        result: BodyResult::Open,
        finish,
        answered: false,
    }
}

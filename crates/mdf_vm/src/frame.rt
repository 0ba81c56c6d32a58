ghost use Rattle.std.specs.Prelude.{◌≡◌, ◌↔◌, ◌+◌, ◌<◌, ◌≤◌, ◌^◌, ◌∷◌, ◌++◌, [], length, map, Some, None, IfOk, IsTrue, OnOk, OnErr};
ghost use Rattle.mdf_code.specs.Alone.{Pending, Words};
ghost use Rattle.mdf_code.specs.Parts.{sizes_at, variables_holding};
ghost use Rattle.mdf_vm.specs.Places as places;
ghost use Rattle.mpl_value.specs.CallAnswers.{arg_of_reply};
ghost use Rattle.mdf_code.specs.Told.{first, learns};
ghost use Rattle.mdf_code.specs.Yields as yields;
ghost use Rattle.mdf_vm.specs.declared.last.Last.TheVariants as last;
ghost use Rattle.mdf_code.specs.declared.raw.RawImage.{RawImage};
ghost use Rattle.mdf_code.specs.Sizes.{StartFits};
ghost use Rattle.mdf_vm.specs.Hollow.{IsHollow};
ghost use Rattle.mdf_vm.specs.Internal.Answers.{IsAnswer};
ghost use Rattle.mdf_vm.specs.Ends.{ended_of};
ghost use Rattle.mdf_vm.specs.Internal.Turns.{halt_of};
ghost use Rattle.mdf_vm.specs.Standing.{Awaits, HasEnded, IsAnswered, IsReady, Ran, RanOut, Tells, alone_of, goes_on, last_at};

use crate::code::{CodeKind, code_at};
use crate::held::Held;
use crate::last::Last;
use crate::moves::Halted;
use crate::results::{Results, Setting};
use crate::running::{Flow, Input, Running};
use crate::stack::Stack;
use crate::stop::Stop;
use crate::variables::Variables;
use crate::word_stack::WordStack;
use mdf_code::{Image, RawImage};
use mpl_value::{BodyStart, Bytes, Known, MemberId, NoMemory, Trap, Words};
use std::alloc::Global;
use std::mem;

const LIMIT: u32 = 2147483648;

/// A body's code that runs, stops and goes on.
#[derive(Drop)]
pub struct Frame {
    running: Running,
    setting: Setting,
    /// The turns since they were last taken.
    turns: u32,
    last: Last,
}

/// What is left of a frame at its end.
#[derive(Drop)]
pub struct Ended {
    pub trap: Option<Trap>,
    /// The line where a result was missed, and 0 after a trap.
    pub line: u32,
    pub state: Words,
    pub lines: Bytes,
}

impl Frame {
    /// The frame of a body at its start.
    pub fn start(alloc: Global, image: &Image, start: &BodyStart) -> Result<Frame, NoMemory>
        ensures alone { IfOk result (λ f. alone_of f ≡ first image.now start.now) }
        ensures object { IfOk result (λ f. f.setting.object ≡ start.now.object) }
        ensures turns { IfOk result (λ f. f.turns ≡ 0) }
        ensures last { IfOk result (λ f. f.last ≡ last.Going) }
    {
        let raw = image.raw();
        let code = code_of(start.member);
        let variables = starting(alloc, raw, start)?;
        let state = start.state.copy()?;
        let input = Input::new(start.input.copy()?);
        let running = Running {
            code,
            place: 0,
            words: WordStack::new(alloc),
            flows: Stack::new(alloc),
            variables,
            callers: Stack::new(alloc),
            state,
            input,
            lines: Bytes::new(alloc),
            replied: false,
            alloc,
        };
        let setting = Setting {
            object: start.object,
            results: Results::new(alloc),
        };
        Ok(Frame {
            running,
            setting,
            turns: 0,
            last: Last::Going,
        })
    }

    /// The room of a frame of a body.
    pub fn hollow(alloc: Global, image: &Image, member: Option<MemberId>) -> Result<Frame, NoMemory>
        ensures { IfOk result (λ f. IsHollow image.now member f) }
    {
        let code = code_of(member);
        let variables = match code_at(image.raw(), code) {
            None => Variables::new(alloc),
            Some(body) => Variables::holding(alloc, 0, body.vars.as_slice(), &[])?,
        };
        let running = Running {
            code,
            place: 0,
            words: WordStack::new(alloc),
            flows: Stack::new(alloc),
            variables,
            callers: Stack::new(alloc),
            state: Words::new(alloc),
            input: Input::new(Words::new(alloc)),
            lines: Bytes::new(alloc),
            replied: false,
            alloc,
        };
        let setting = Setting {
            object: 0,
            results: Results::new(alloc),
        };
        Ok(Frame {
            running,
            setting,
            turns: 0,
            last: Last::Going,
        })
    }

    /// The frame at the start of its body. It takes no memory.
    pub fn fill(&mut self, start: BodyStart)
        ensures alone { (image : RawImage) → IsHollow image start.member self.old → StartFits image start → alone_of self.new ≡ first image start }
        ensures object { self.new.setting.object ≡ start.object }
        ensures turns { self.new.turns ≡ self.old.turns }
        ensures last { self.new.last ≡ self.old.last }
    {
        let BodyStart {
            member: _,
            args,
            state,
            object,
            number: _,
            input,
        } = start;
        self.running.variables.pour(args.as_slice());
        self.running.state = state;
        self.running.input = Input::new(input);
        self.setting.object = object;
    }

    /// Runs to the next stop, or until `quantum` turns are spent. Without memory the frame goes on from where it met that.
    pub fn run(&mut self, image: &Image, quantum: u32) -> Result<Stop, NoMemory>
        requires some { 1 ≤ quantum }
        requires few { quantum ≤ 256 }
        requires ready { IsReady self.old }
        ensures ok { IfOk result (λ stop. Ran image.now quantum self.old stop self.new) }
        ensures err { OnErr result (RanOut image.now quantum self.old self.new) }
    {
        self.answer(image.raw())?;
        let mut spent = 0;
        let ran = self.running.run(image, &self.setting, quantum, &mut spent);
        self.turns += spent;
        let halted = ran?;
        Ok(self.stop(halted))
    }

    /// The last stop is answered: the result of a call is a flow value, and the word of an object is on the stack.
    fn answer(&mut self, image: &RawImage) -> Result<(), NoMemory>
        requires few { length self.old.setting.results < 2 ^ 31 }
        requires answered { IsAnswered self.old.last }
        ensures ok { OnOk result (IsAnswer image.now self.old self.new) }
        ensures err { OnErr result (self.new ≡ self.old) }
    {
        match self.last {
            Last::Called(member) => self.take_result(image, member)?,
            Last::Named(object) => self.running.words.push(object)?,
            _ => {}
        }
        self.last = Last::Going;
        Ok(())
    }

    fn take_result(&mut self, image: &RawImage, member: u32) -> Result<(), NoMemory>
        requires { length self.old.setting.results < 2 ^ 31 }
        ensures ok { OnOk result (self.new ≡ record self.old { running = record self.old.running { flows = record { value = Pending (length self.old.setting.results + 1); words = yields.words_of_result image.now member } ∷ self.old.running.flows }; setting = record self.old.setting { results = self.old.setting.results ++ None ∷ [] } }) }
        ensures err { OnErr result (self.new ≡ self.old) }
    {
        let number = self.setting.results.len() as u32 + 1;
        let flow = Flow::new(Held::of_result(number), result_words(image, member));
        self.running.flows.push(flow)?;
        if self.setting.results.add().is_err() {
            self.running.flows.shorten(1);
            return Err(NoMemory);
        }
        Ok(())
    }

    /// What is told outside of a halt, and what is left of it.
    fn stop(&mut self, halted: Option<Halted>) -> Stop
        ensures tells { Tells result (halt_of halted) }
        ensures last { self.new ≡ record self.old { last = last_at (halt_of halted) } }
    {
        match halted {
            None => {
                self.last = Last::Going;
                Stop::Beat
            }
            Some(Halted::Call(calling)) => {
                self.last = Last::Called(calling.member.0);
                Stop::Call(calling.into_sent())
            }
            Some(Halted::Need(result)) => {
                self.last = Last::Needs(result);
                Stop::Need(result)
            }
            Some(Halted::Reply(value)) => {
                self.last = Last::Going;
                Stop::Reply(value.flow_arg())
            }
            Some(Halted::Create(class)) => {
                self.last = Last::Creates;
                Stop::Create(class)
            }
            Some(Halted::End(line)) => {
                self.last = Last::Ended(line);
                Stop::End
            }
            Some(Halted::Stray) => {
                self.last = Last::Ended(0);
                Stop::End
            }
            Some(Halted::Trap(trap)) => {
                self.last = Last::Trapped(trap);
                Stop::Trap(trap)
            }
        }
    }

    /// Whether the frame can run on: its last stop was answered, and its turns and calls are few enough.
    pub fn is_ready(&self) -> bool
        ensures { IsTrue result ↔ IsReady self.now }
    {
        let answered = match self.last {
            Last::Going | Last::Called(_) | Last::Named(_) => true,
            _ => false,
        };
        answered && self.turns < LIMIT && self.setting.results.len() < LIMIT as usize
    }

    /// Whether the frame waits for the result of a call, by its number.
    pub fn awaits(&self, number: u32) -> bool
        ensures { IsTrue result ↔ Awaits number self.now }
    {
        let needed = match self.last {
            Last::Needs(result) => result == number,
            _ => false,
        };
        needed && 1 <= number && number as usize <= self.setting.results.len()
    }

    /// Whether the frame waits for the word of an object.
    pub fn awaits_object(&self) -> bool
        ensures { IsTrue result ↔ (self.now.last ≡ last.Creates) }
    {
        matches!(self.last, Last::Creates)
    }

    /// Whether the frame has come to its end or to a trap.
    pub fn is_over(&self) -> bool
        ensures { IsTrue result ↔ HasEnded self.now.last }
    {
        matches!(self.last, Last::Ended(_) | Last::Trapped(_))
    }

    /// A result that was needed is known from now on.
    pub fn learn(&mut self, number: u32, known: Known)
        requires { Awaits number self.old }
        ensures alone { alone_of self.new ≡ record (alone_of self.old) { knows = learns number (arg_of_reply (Some known)) (alone_of self.old).knows } }
        ensures rest { record self.new { setting = self.old.setting } ≡ record self.old { last = last.Going } }
        ensures object { self.new.setting.object ≡ self.old.setting.object }
    {
        self.setting.results.learn(number as usize - 1, known);
        self.last = Last::Going;
    }

    /// The word of an object that was created.
    pub fn named(&mut self, object: i64)
        requires { self.old.last ≡ last.Creates }
        ensures { self.new ≡ record self.old { last = last.Named object } }
    {
        self.last = Last::Named(object);
    }

    /// The turns since they were last taken.
    pub fn turns(&mut self) -> u32
        ensures turns { result ≡ self.old.turns }
        ensures rest { self.new ≡ record self.old { turns = 0 } }
    {
        mem::replace(&mut self.turns, 0)
    }

    /// What was printed.
    pub fn lines(&self) -> &Bytes
        ensures { result.now ≡ (alone_of self.now).frame.lines }
    {
        &self.running.lines
    }

    /// What is left at an end or a trap.
    pub fn finish(self) -> Ended
        requires { HasEnded self.last }
        ensures { result ≡ ended_of self }
    {
        let Frame {
            running,
            setting: _,
            turns: _,
            last,
        } = self;
        let (trap, line) = match last {
            Last::Ended(line) => (None, line),
            Last::Trapped(trap) => (Some(trap), 0),
            _ => unreachable!(),
        };
        Ended {
            trap,
            line,
            state: running.state,
            lines: running.lines,
        }
    }
}

fn code_of(member: Option<MemberId>) -> CodeKind
    ensures { places.code_of result ≡ yields.code_of_member member }
{
    match member {
        None => CodeKind::Main,
        Some(member) => CodeKind::Member(member.0),
    }
}

fn formals_at(image: &RawImage, member: Option<MemberId>) -> u32
    ensures { result ≡ yields.formals_at image.now member }
{
    match member {
        None => 0,
        Some(member) => match image.members.get(member.0 as usize) {
            None => 0,
            Some(member) => member.formals,
        },
    }
}

fn result_words(image: &RawImage, member: u32) -> u32
    ensures { result ≡ yields.words_of_result image.now member }
{
    match image.members.get(member as usize) {
        None => 0,
        Some(member) => member.result.unwrap_or(0),
    }
}

/// The variables of a body at its start.
fn starting(alloc: Global, image: &RawImage, start: &BodyStart) -> Result<Variables, NoMemory>
    ensures { IfOk result (λ variables. variables ≡ map Words (variables_holding (yields.formals_at image.now start.now.member) (sizes_at image.now (yields.code_of_member start.now.member)) start.now.args)) }
{
    let formals = formals_at(image, start.member);
    match code_at(image, code_of(start.member)) {
        None => Variables::holding(alloc, formals, &[], start.args.as_slice()),
        Some(body) => Variables::holding(
            alloc,
            formals,
            body.vars.as_slice(),
            start.args.as_slice(),
        ),
    }
}

ghost use Rattle.std.specs.Prelude.{◌≡◌, ◌<◌, ◌≤◌, ◌+◌, ◌-◌, ◌^◌, ◌∷◌, ◌++◌, [], ℕ, List, None, OnOk, OnErr, length};
ghost use Rattle.std.specs.FinMap.{get};
ghost use Rattle.mdf_future.specs.Openings.{HaveResults, opened_with};
ghost use Rattle.mdf_machine.specs.declared.rows.Row as kept;
ghost use Rattle.mdf_machine.specs.Internal.Happened.{event_of};
ghost use Rattle.mdf_machine.specs.Internal.Rows.{changed, with_child};
ghost use Rattle.mdf_machine.specs.Internal.Sending.{MayAdd, mark_by, rows_by, status_by, with_call};

use crate::happened::{Happened, History};
use crate::parts::Parts;
use crate::rows::Rows;
use mdf_actor::{ActorStatus, Actors};
use mdf_order::Serials;
use mpl_value::{MemberId, NoMemory};

/// A call that is made, with an actor that is the next one.
#[derive(Clone, Copy)]
pub struct NewCall {
    pub caller: u32,
    pub callee: u32,
    pub member: MemberId,
    /// How many arguments it has, and how many of these are missing.
    pub ports: u32,
    pub missing: u32,
}

/// The event of a call happens, and all but the ports of its actor is kept. Without memory nothing is changed.
pub fn make_call(
    history: &mut History,
    parts: &mut Parts,
    event: Happened,
    call: &NewCall,
    passed: &[Option<u32>],
) -> Result<(), NoMemory>
    requires { MayAdd parts.old call.now passed.now }
    ensures ok { OnOk result (parts.new ≡ with_call parts.old call.now passed.now) }
    ensures err { OnErr result (parts.new ≡ parts.old) }
    ensures happened { OnOk result (history.new ≡ event_of event ∷ history.old) }
    ensures nothing { OnErr result (history.new ≡ history.old) }
{
    history.push(event)?;
    if let Err(why) = parts.add_call(call, passed) {
        history.pop();
        return Err(why);
    }
    Ok(())
}

impl Parts {
    /// The actor of a call, but for its ports.
    fn add_call(&mut self, call: &NewCall, passed: &[Option<u32>]) -> Result<(), NoMemory>
        requires { MayAdd self.old call.now passed.now }
        ensures ok { OnOk result (self.new ≡ with_call self.old call.now passed.now) }
        ensures err { OnErr result (self.new ≡ self.old) }
    {
        add_status(&mut self.statuses, call.missing)?;
        if let Err(why) = self.add_row(call, passed) {
            self.statuses.withdraw();
            return Err(why);
        }
        Ok(())
    }

    /// The same, but for its status.
    fn add_row(&mut self, call: &NewCall, passed: &[Option<u32>]) -> Result<(), NoMemory>
        requires { MayAdd (record self.old { statuses = [] }) call.now passed.now }
        ensures ok { OnOk result (self.new ≡ record self.old { rows = rows_by self.old.rows call.now; results = opened_with self.old.results call.now.callee passed.now; going = self.old.going ++ mark_by call.now.missing ∷ [] }) }
        ensures err { OnErr result (self.new ≡ self.old) }
    {
        self.rows.add_call(call)?;
        if let Err(why) = self.add_result(call, passed) {
            self.rows.drop_call(call.caller);
            return Err(why);
        }
        Ok(())
    }

    /// Its mark and its result.
    fn add_result(&mut self, call: &NewCall, passed: &[Option<u32>]) -> Result<(), NoMemory>
        requires mark { length self.old.going < 2 ^ 32 - 1 }
        requires result { get self.old.results.results call.now.callee ≡ None }
        requires passed { HaveResults self.old.results passed.now }
        requires few { length passed.now ≤ 16 }
        ensures ok { OnOk result (self.new ≡ record self.old { results = opened_with self.old.results call.now.callee passed.now; going = self.old.going ++ mark_by call.now.missing ∷ [] }) }
        ensures err { OnErr result (self.new ≡ self.old) }
    {
        add_mark(&mut self.going, call.missing)?;
        if let Err(why) = self.results.open_with(call.callee, passed) {
            self.going.withdraw();
            return Err(why);
        }
        Ok(())
    }
}

impl Rows {
    /// One more actor, which is that of a call.
    fn add_call(&mut self, call: &NewCall) -> Result<(), NoMemory>
        requires { call.now.caller < length self.old }
        ensures ok { OnOk result (self.new ≡ rows_by self.old call.now) }
        ensures err { OnErr result (self.new ≡ self.old) }
    {
        self.add_child(call.caller, call.callee)?;
        if let Err(why) = self.push(call.caller, Some(call.member), call.ports) {
            self.drop_child(call.caller);
            return Err(why);
        }
        Ok(())
    }

    /// Takes the newest actor back, and the last call of its caller.
    fn drop_call(&mut self, caller: u32)
        requires { caller + 1 < length self.old }
        ensures { (before : List kept.Row) (child : ℕ) (row : kept.Row) → self.old ≡ changed (with_child child) caller before ++ row ∷ [] → self.new ≡ before }
    {
        self.pop();
        self.drop_child(caller);
    }
}

/// One more actor, for which so many arguments are missing.
fn add_status(statuses: &mut Actors, missing: u32) -> Result<(), NoMemory>
    requires { length statuses.old < 2 ^ 32 - 1 }
    ensures ok { OnOk result (statuses.new ≡ statuses.old ++ status_by missing ∷ []) }
    ensures err { OnErr result (statuses.new ≡ statuses.old) }
{
    let actor = statuses.add(missing)?;
    if missing == 0 {
        statuses.set(actor, ActorStatus::Ready);
    }
    Ok(())
}

/// The mark of one more actor, for which so many arguments are missing.
fn add_mark(going: &mut Serials, missing: u32) -> Result<(), NoMemory>
    requires { length going.old < 2 ^ 32 - 1 }
    ensures ok { OnOk result (going.new ≡ going.old ++ mark_by missing ∷ []) }
    ensures err { OnErr result (going.new ≡ going.old) }
{
    let actor = going.add()?;
    if missing == 0 {
        going.insert(actor);
    }
    Ok(())
}

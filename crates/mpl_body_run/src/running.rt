ghost use Rattle.std.specs.Prelude.{◌≡◌, ◌<◌, ◌≤◌, ◌^◌, ℕ, [], length, Some, IfOk};
ghost use Rattle.mpl_mean.specs.Limits.{greatest_budget};
ghost use Rattle.mpl_body_code.specs.Images.{starts};
ghost use Rattle.mpl_body_code.specs.Machine.{Stops};
ghost use Rattle.mpl_body_code.specs.Steps.{exec, stops};
ghost use Rattle.mpl_value.specs.declared.body.BodyEnd.TheVariants as end;
ghost use Rattle.mpl_body_run.specs.Seen.{machine_seen};
ghost use Rattle.mpl_body_run.specs.SeenSetting.{setting_seen};
ghost use Rattle.mpl_body_run.specs.Small.{MachineIsSmall};

use crate::machine::Machine;
use crate::setting::Setting;
use crate::unwind::stopped;
use mpl_value::{BodyEnd, NoMemory, Yield};

/// A turn for the start, and then the code, to its yield.
pub fn run(setting: &Setting, machine: Machine) -> Result<Yield, NoMemory>
    requires budget { setting.now.budget ≤ greatest_budget }
    requires number { machine.frame.number < 2 ^ 31 }
    requires creations { length machine.body.creations ≡ 0 }
    requires calls { length machine.body.calls ≡ 0 }
    requires callers { machine.callers.items ≡ [] }
    requires turns { machine.turns ≡ 0 }
    ensures { IfOk result (λ y. (steps : ℕ) × (starts steps (setting_seen setting.now) (machine_seen machine) ≡ Some y)) }
{
    let mut machine = machine;
    machine.turns += 1;
    if machine.turns <= setting.budget {
        go(setting, machine)
    } else {
        Ok(spent(machine))
    }
}

/// No turn is left for the start.
fn spent(machine: Machine) -> Yield
    requires { machine.callers.items ≡ [] }
    ensures { stops end.Spent (machine_seen machine) ≡ Stops result }
{
    stopped(BodyEnd::Spent, machine.body, machine.turns)
}

/// Step by step to the yield.
fn go(setting: &Setting, machine: Machine) -> Result<Yield, NoMemory>
    requires budget { setting.now.budget ≤ greatest_budget }
    requires small { MachineIsSmall setting.now.budget (machine_seen machine) }
    ensures { IfOk result (λ y. (steps : ℕ) × (exec steps (setting_seen setting.now) (machine_seen machine) ≡ Some y)) }
{
    let mut machine = machine;
    loop {
        match machine.performed(setting) {
            Ok(()) => continue,
            Err(why) => match machine.stop(setting.alloc, why)? {
                Some(result) => return Ok(result),
                None => {}
            },
        }
    }
}

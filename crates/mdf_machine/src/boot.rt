ghost use Rattle.std.specs.Prelude.{◌≡◌, ◌≤◌, [], IfOk};
ghost use Rattle.mdf_drive.specs.Plain.{IsPlain};
ghost use Rattle.mdf_machine.specs.Courses.{most_budget};
ghost use Rattle.mdf_machine.specs.Internal.Opening.{first_parts};

use crate::happened::History;
use crate::machine::Machine;
use crate::parts::Parts;
use crate::rows::Rows;
use mdf_actor::{ActorStatus, Actors};
use mdf_code::Image;
use mdf_core::MachineStatus;
use mdf_future::Futures;
use mdf_match::Matcher;
use mdf_order::Serials;
use mpl_value::{BodyEnd, Bytes, NoMemory, Words};
use std::alloc::Global;

impl Machine {
    /// A machine in which `main` is ready.
    pub fn boot(alloc: Global, image: Image, input: Words, budget: u64) -> Result<Machine, NoMemory>
        requires few { budget ≤ most_budget }
        requires plain { IsPlain (record { image = image; input = input; budget = budget }) }
        ensures { IfOk result (λ m. m ≡ record { job = record { image = image; input = input; budget = budget }; log = [] }) }
    {
        let parts = first(alloc)?;
        Ok(Machine {
            image,
            input,
            budget,
            parts,
            history: History::new(alloc),
            alloc,
        })
    }
}

fn first(alloc: Global) -> Result<Parts, NoMemory>
    ensures { IfOk result (λ parts. parts ≡ first_parts) }
{
    let statuses = first_status(alloc)?;
    let mut rows = Rows::new(alloc);
    rows.push(0, None, 0)?;
    let mut ports = Matcher::new(alloc);
    ports.open(0, 0)?;
    let mut results = Futures::new(alloc);
    results.open(0)?;
    let going = first_mark(alloc)?;
    Ok(Parts {
        statuses,
        rows,
        ports,
        results,
        going,
        turns: 0,
        fired: 0,
        why: MachineStatus::Going,
        lines: Bytes::new(alloc),
        main_end: BodyEnd::Waits,
    })
}

fn first_status(alloc: Global) -> Result<Actors, NoMemory>
    ensures { IfOk result (λ statuses. statuses ≡ first_parts.statuses) }
{
    let mut statuses = Actors::new(alloc);
    let main = statuses.add(0)?;
    statuses.set(main, ActorStatus::Ready);
    Ok(statuses)
}

fn first_mark(alloc: Global) -> Result<Serials, NoMemory>
    ensures { IfOk result (λ going. going ≡ first_parts.going) }
{
    let mut going = Serials::new(alloc);
    let main = going.add()?;
    going.insert(main);
    Ok(going)
}

ghost use Rattle.std.specs.Prelude.{◌≡◌, ◌≢◌, IsSome, IsTrue, OnErr, OnOk};
ghost use Rattle.std.specs.FinMap as map;
ghost use Rattle.mdf_future.specs.declared.future.Give.TheVariants as give;
ghost use Rattle.mdf_future.specs.Results.{may_give};
ghost use Rattle.mdf_machine.specs.Internal.Forwarding.{passed_on};

use crate::parts::Parts;
use mdf_future::{Consumer, Give};
use mpl_value::NoMemory;

impl Parts {
    /// The result of an actor will be that of another one.
    pub fn forward(&mut self, actor: u32, child: u32) -> Result<(), NoMemory>
        requires other { child ≢ actor }
        requires child { IsSome (map.get self.old.results.results child) }
        requires may { IsTrue (may_give self.old.results actor (give.Result child)) }
        ensures ok { OnOk result (self.new ≡ record self.old { results = passed_on self.old.results actor child }) }
        ensures err { OnErr result (self.new ≡ self.old) }
    {
        self.results.wait(child, Consumer::Result(actor))?;
        self.results.give(actor, Give::Result(child));
        Ok(())
    }
}

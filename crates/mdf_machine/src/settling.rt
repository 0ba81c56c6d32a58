ghost use Rattle.std.specs.Prelude.{◌≡◌, ◌<◌, length, IsTrue, slice_get};
ghost use Rattle.mdf_future.specs.declared.future.Give.TheVariants as give;
ghost use Rattle.mdf_future.specs.Results.{may_give, settled};
ghost use Rattle.mdf_match.specs.Data.{HasFewWords};
ghost use Rattle.mdf_machine.specs.Internal.Settling.{HasCaller, waits_for, woken};

use crate::parts::Parts;
use mdf_actor::ActorStatus;
use mdf_future::Give;
use mpl_value::Known;

impl Parts {
    /// The result of an actor is known from now on, and its caller can go on where it is parked on it.
    pub fn settle(&mut self, actor: u32, known: Known)
        requires may { IsTrue (may_give self.old.results actor (give.Known known)) }
        requires few { HasFewWords known }
        requires there { actor < length self.old.rows }
        requires caller { HasCaller self.old actor }
        ensures { self.new ≡ record self.old { results = settled self.old.results actor known; going = woken self.old actor } }
    {
        let caller = self.rows.row(actor).caller;
        self.results.give(actor, Give::Known(known));
        if self.waits_for(caller, actor) {
            self.going.insert(caller);
        }
    }

    fn waits_for(&self, actor: u32, child: u32) -> bool
        requires { actor < length self.now.statuses }
        ensures { result ≡ waits_for child (slice_get self.now.statuses actor) }
    {
        match self.statuses.status(actor) {
            ActorStatus::Parked(on) => on == child,
            _ => false,
        }
    }
}

//! What `main` has done in a machine at rest.
ghost use Rattle.std.specs.Prelude.{ℕ, ◌≡◌, ◌∷◌, List};
ghost use Rattle.mpl_value.specs.declared.body.BodyEnd.{BodyEnd};
ghost use Rattle.mpl_value.specs.declared.body.BodyEnd.TheVariants as end;
ghost use Rattle.mdf_actor.specs.declared.status.ActorStatus.TheVariants as status;
ghost use Rattle.mdf_code.specs.Told.{HaltsNext, Stood};
ghost use Rattle.mdf_core.specs.declared.status.MachineStatus.TheVariants.{Rest};
ghost use Rattle.mdf_core.specs.Enabled.{IsLog};
ghost use Rattle.mdf_core.specs.Events.{Quit};
ghost use Rattle.mdf_core.specs.Rest.{MainDid};
ghost use Rattle.mdf_core.specs.Steps.{Log, after};
ghost use Rattle.mdf_core.specs.Worlds.{Job, World};
ghost use Rattle.mdf_drive.specs.MainEnds.{MainRests};
ghost use Rattle.mdf_drive.specs.Plain.{IsPlain};

/// A machine whose status is Rest ended so by its last event. In a program without persistent objects `main` has ended
/// then, or is parked on a result that will not be known.
pub fn main_ends_or_waits_at_rest()
    ensures last { (job : Job) (log : Log) → IsLog job log → (after job log).why ≡ Rest → (before : Log) × (log ≡ Quit Rest ∷ before) }
    ensures rests { (job : Job) (log : Log) → IsPlain job → IsLog job log → (after job log).why ≡ Rest → MainRests (after job log) ((after job log).actors 0).status }
{}

/// Where `main` was put away it waits, with the lines that its frame has printed. It did one thing alone.
pub fn main_does_one_thing()
    ensures waits { (job : Job) (log : Log) (child : ℕ) (stood : Stood) → IsLog job log → ((after job log).actors 0).status ≡ status.Parked child → HaltsNext job.image ((after job log).actors 0).start ((after job log).actors 0).told stood → MainDid job (after job log) end.Waits stood.frame.lines }
    ensures one { (job : Job) (w : World) (end other : BodyEnd) (lines more : List ℕ) → MainDid job w end lines → MainDid job w other more → (end ≡ other) × (lines ≡ more) }
{}

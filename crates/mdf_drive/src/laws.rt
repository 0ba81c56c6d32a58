//! Laws of logs at rest, for programs without persistent objects. A log is read from its end, so that its newest event
//! comes first.
ghost use Rattle.std.specs.Prelude.{ℕ, ◌≡◌, ◌<◌, ◌≤◌, ◌∷◌};
ghost use Rattle.std.specs.FinMap.{empty};
ghost use Rattle.mpl_value.specs.declared.body.BodyEnd.TheVariants as end;
ghost use Rattle.mpl_value.specs.declared.body.Yield.{Yield};
ghost use Rattle.mpl_mean.specs.Meaning.DirectRun.{main_start};
ghost use Rattle.mdf_code.specs.Yields.{Yields};
ghost use Rattle.mdf_core.specs.declared.status.MachineStatus.TheVariants.{Rest};
ghost use Rattle.mdf_core.specs.Actors.{arguments_of};
ghost use Rattle.mdf_core.specs.Enabled.{IsLog};
ghost use Rattle.mdf_core.specs.Events.{Quit};
ghost use Rattle.mdf_core.specs.Stages.{times_fired};
ghost use Rattle.mdf_core.specs.Steps.{Log, after};
ghost use Rattle.mdf_core.specs.Worlds.{Job};
ghost use Rattle.mdf_drive.specs.Plain.{EachRegular, IsPlain, StraysAsBodies};
ghost use Rattle.mdf_drive.specs.AtRest.{IsAnswer, IsDirectRun, SameRun, fires_with};

/// A program whose classes are regular has no objects.
pub fn programs_of_regular_classes_are_plain()
    ensures { (job : Job) → EachRegular job.image → IsPlain job }
{}

/// A machine at rest did what the direct run does: `main` has the same end and the same lines, and as many turns were taken.
pub fn logs_at_rest_are_the_direct_run()
    ensures { (job : Job) (log : Log) → IsPlain job → StraysAsBodies job (after job log) → IsLog job (Quit Rest ∷ log) → IsDirectRun job (after job log) }
{}

/// At rest an actor has fired once where its arguments are known and not trapped, and else not, and there are no fires of
/// others.
pub fn actors_fire_where_arguments_are_known()
    ensures actors { (job : Job) (log : Log) → IsPlain job → StraysAsBodies job (after job log) → IsLog job (Quit Rest ∷ log) → (c : ℕ) → c < (after job log).count → times_fired c log ≡ fires_with (arguments_of ((after job log).actors c).ports) }
    ensures others { (job : Job) (log : Log) → IsLog job log → (c : ℕ) → (after job log).count ≤ c → times_fired c log ≡ 0 }
{}

/// At rest the known result of each actor but `main` is the answer of its call, and a result that isn't known is unknown
/// there.
pub fn results_are_answers()
    ensures { (job : Job) (log : Log) → IsPlain job → StraysAsBodies job (after job log) → IsLog job (Quit Rest ∷ log) → (c : ℕ) → 0 < c → c < (after job log).count → IsAnswer job (after job log) c }
{}

/// Where the turns of a machine are above its budget the direct run is spent.
pub fn logs_over_the_budget_are_spent()
    ensures { (job : Job) (log : Log) (y : Yield) → IsPlain job → StraysAsBodies job (after job log) → IsLog job log → job.budget < (after job log).turns → Yields job.image (main_start job.input) empty job.budget y → y.end ≡ end.Spent }
{}

/// The order of events doesn't matter: two logs of one job that are at rest have the same end of `main`, the same lines and
/// as many turns, and where one is at rest no other is above the budget.
pub fn orders_do_not_matter()
    ensures same { (job : Job) (one other : Log) → IsPlain job → StraysAsBodies job (after job one) → StraysAsBodies job (after job other) → IsLog job (Quit Rest ∷ one) → IsLog job (Quit Rest ∷ other) → SameRun job (after job one) (after job other) }
    ensures within { (job : Job) (one other : Log) → IsPlain job → StraysAsBodies job (after job one) → StraysAsBodies job (after job other) → IsLog job (Quit Rest ∷ one) → IsLog job other → (after job other).turns ≤ (after job one).turns }
{}

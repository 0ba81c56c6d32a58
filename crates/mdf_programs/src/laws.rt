//! Laws of logs of programs. A log is read from its end, so that its newest event comes first.
ghost use Rattle.std.specs.Prelude.{ℕ, ◌≡◌, ◌<◌, ◌≤◌, ◌∷◌, Bool, true, List, ℤ, Some, slice_get};
ghost use Rattle.mpl_ast.specs.declared.program.Program.{Program};
ghost use Rattle.mpl_value.specs.declared.body.BodyEnd.TheVariants as end;
ghost use Rattle.mpl_value.specs.declared.body.MemberId.{MemberId};
ghost use Rattle.mpl_mean.specs.Laws.Sizes as program;
ghost use Rattle.mpl_mean.specs.Meaning.DirectRun.{direct_run};
ghost use Rattle.mpl_mean.specs.Pending.MayBePending.{MayBePending};
ghost use Rattle.mpl_mean.specs.TypeRules.Rules.{is_typed};
ghost use Rattle.mdf_code.specs.Sizes.{ArgFits, ArgumentsFit, StartFits};
ghost use Rattle.mdf_code.specs.Yields.{words_of_result};
ghost use Rattle.mdf_core.specs.declared.status.MachineStatus.TheVariants.{Rest};
ghost use Rattle.mdf_core.specs.Actors.{arguments_of};
ghost use Rattle.mdf_core.specs.Enabled.{IsLog};
ghost use Rattle.mdf_core.specs.Events.{Quit};
ghost use Rattle.mdf_core.specs.Stages.{has_begun};
ghost use Rattle.mdf_core.specs.Steps.{Log, after};
ghost use Rattle.mdf_core.specs.Worlds.{Job};
ghost use Rattle.mdf_drive.specs.AtRest.{result_seen};
ghost use Rattle.mdf_drive.specs.Plain.{IsPlain, StraysAsBodies};
ghost use Rattle.mdf_programs.specs.ProgramJobs.{HasRegularClasses, RanDirectly, SameRuns, job_of};

/// Along a log the sizes are kept, whatever the image is: a body that has begun starts with as many words as its formals
/// have, it has an argument of its size for each formal of its member, and a result that is a known value has the words of
/// its member's result.
pub fn logs_keep_sizes()
    ensures starts { (job : Job) (log : Log) → IsLog job log → (c : ℕ) → c < (after job log).count → has_begun ((after job log).actors c).status ≡ true → StartFits job.image ((after job log).actors c).start }
    ensures arguments { (job : Job) (log : Log) → IsLog job log → (c : ℕ) (member : MemberId) → c < (after job log).count → has_begun ((after job log).actors c).status ≡ true → ((after job log).actors c).call.member ≡ Some member → ArgumentsFit (arguments_of ((after job log).actors c).ports) (slice_get job.image.members member.0) }
    ensures results { (job : Job) (log : Log) → IsLog job log → (c : ℕ) (member : MemberId) → c < (after job log).count → ((after job log).actors c).call.member ≡ Some member → ArgFits (words_of_result job.image member.0) (result_seen (after job log) (Some c)) }
{}

/// A program whose classes are regular has no objects.
pub fn regular_programs_are_plain()
    ensures { (p : Program) (marks : ℕ → Bool) (input : List ℤ) (budget : ℕ) → HasRegularClasses p → IsPlain (job_of p marks input budget) }
{}

/// In a machine of a well typed program whose classes are regular the body of each actor starts with words that the
/// declarations ask for, whatever uses are marked.
pub fn starts_fit_their_declarations()
    ensures { (p : Program) (marks : ℕ → Bool) (input : List ℤ) (budget : ℕ) → is_typed p ≡ true → HasRegularClasses p → (log : Log) → IsLog (job_of p marks input budget) log → (c : ℕ) → c < (after (job_of p marks input budget) log).count → has_begun ((after (job_of p marks input budget) log).actors c).status ≡ true → program.StartFits p ((after (job_of p marks input budget) log).actors c).start }
{}

/// Where each use is marked that may find a pending or a trapped result its frames stray nowhere but where their bodies do.
/// More marks change nothing.
pub fn frames_of_programs_stray_as_bodies()
    ensures { (p : Program) (marks : ℕ → Bool) (input : List ℤ) (budget : ℕ) → is_typed p ≡ true → HasRegularClasses p → ((node : ℕ) → MayBePending p node → marks node ≡ true) → (log : Log) → IsLog (job_of p marks input budget) log → StraysAsBodies (job_of p marks input budget) (after (job_of p marks input budget) log) }
{}

/// A machine at rest did what its program does directly, where the program is well typed, its classes are regular, and each use is
/// marked that may find a pending or a trapped result: `main` came to the same end with the same lines, and as many turns were
/// taken.
pub fn machines_at_rest_ran_directly()
    ensures { (p : Program) (marks : ℕ → Bool) (input : List ℤ) (budget : ℕ) → is_typed p ≡ true → HasRegularClasses p → ((node : ℕ) → MayBePending p node → marks node ≡ true) → (log : Log) → IsLog (job_of p marks input budget) (Quit Rest ∷ log) → RanDirectly p (job_of p marks input budget) (after (job_of p marks input budget) log) }
{}

/// Where the turns of such a machine are above its budget the direct run within the budget is spent.
pub fn machines_over_the_budget_are_spent()
    ensures { (p : Program) (marks : ℕ → Bool) (input : List ℤ) (budget : ℕ) → is_typed p ≡ true → HasRegularClasses p → ((node : ℕ) → MayBePending p node → marks node ≡ true) → (log : Log) → IsLog (job_of p marks input budget) log → budget < (after (job_of p marks input budget) log).turns → (direct_run p input budget).end ≡ end.Spent }
{}

/// Neither the order of events nor the marks matter: two such machines at rest have the same end of `main`, the same lines and as
/// many turns, and where one is at rest no other takes more turns, at any time.
pub fn orders_and_marks_do_not_matter()
    ensures same { (p : Program) (marks others : ℕ → Bool) (input : List ℤ) (budget : ℕ) → is_typed p ≡ true → HasRegularClasses p → ((node : ℕ) → MayBePending p node → marks node ≡ true) → ((node : ℕ) → MayBePending p node → others node ≡ true) → (one other : Log) → IsLog (job_of p marks input budget) (Quit Rest ∷ one) → IsLog (job_of p others input budget) (Quit Rest ∷ other) → SameRuns (job_of p marks input budget) (after (job_of p marks input budget) one) (job_of p others input budget) (after (job_of p others input budget) other) }
    ensures within { (p : Program) (marks others : ℕ → Bool) (input : List ℤ) (budget : ℕ) → is_typed p ≡ true → HasRegularClasses p → ((node : ℕ) → MayBePending p node → marks node ≡ true) → ((node : ℕ) → MayBePending p node → others node ≡ true) → (one other : Log) → IsLog (job_of p marks input budget) (Quit Rest ∷ one) → IsLog (job_of p others input budget) other → (after (job_of p others input budget) other).turns ≤ (after (job_of p marks input budget) one).turns }
{}

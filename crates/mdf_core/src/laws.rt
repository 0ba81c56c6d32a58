//! Laws of logs. A log is read from its end, so that its newest event comes first, unless it is said otherwise.
ghost use Rattle.std.specs.Prelude.{◌≡◌, ◌<◌, ◌≤◌, ◌+◌, Some, slice_get, ℕ, Contains, List, [], ◌∷◌, ◌++◌, true, false};
ghost use Rattle.std.specs.List.{filter_map};
ghost use Rattle.mdf_core.specs.declared.status.MachineStatus.TheVariants.{Going};
ghost use Rattle.mpl_value.specs.declared.known.Known.{Known};
ghost use Rattle.mdf_code.specs.Alone.{Held};
ghost use Rattle.mdf_core.specs.Actors.{Open, Target};
ghost use Rattle.mdf_core.specs.Arguments.{ArcsLead, HasArgument};
ghost use Rattle.mdf_core.specs.Awaited.{AllAwaited, times_awaited};
ghost use Rattle.mdf_core.specs.Causes.{AreSo};
ghost use Rattle.mdf_core.specs.DueArcs.{ArcsAreDue};
ghost use Rattle.mdf_core.specs.Enabled.{Enabled, IsLog};
ghost use Rattle.mdf_core.specs.Events.{Event, Reply};
ghost use Rattle.mdf_core.specs.Mail.{MailIs};
ghost use Rattle.mdf_core.specs.Naming.{SameFrame, is_running, names, spent_in, sum_below};
ghost use Rattle.mdf_core.specs.Out.{actor_of, has_ended, is_out, is_out_in_order};
ghost use Rattle.mdf_core.specs.Stages.{AsItsStatus, has_begun, once_if, times_fired};
ghost use Rattle.mdf_core.specs.Steps.{Log, after};
ghost use Rattle.mdf_core.specs.Trees.{IsTree, over_calls};
ghost use Rattle.mdf_core.specs.Worlds.{Job, fate_at, known_at};

/// Events that don't name an actor leave it out exactly where it was, whatever the events are. Here the oldest event
/// comes first.
pub fn unnamed_actors_stay_out()
    ensures { (events more : List Event) (a : ℕ) → (Contains (filter_map actor_of more) a → ⊥) → is_out_in_order (events ++ more) a ≡ is_out_in_order events a }
{}

/// Nothing follows the end of a machine.
pub fn ended_logs_stay()
    ensures goes { (job : Job) (log : Log) → IsLog job log → has_ended log ≡ false → (after job log).why ≡ Going }
    ensures stays { (job : Job) (more log : Log) → IsLog job (more ++ log) → has_ended log ≡ true → more ≡ [] }
{}

/// An actor is out where it runs.
pub fn running_actors_are_out()
    ensures { (job : Job) (log : Log) (a : ℕ) → IsLog job log → is_out log a ≡ is_running ((after job log).actors a).status }
{}

/// The frame of an actor that is out stays as it is where no event names the actor. So it may be held outside the machine.
pub fn frames_that_are_out_stay()
    ensures { (job : Job) (more log : Log) (a : ℕ) → IsLog job (more ++ log) → is_out log a ≡ true → names a more ≡ false → SameFrame ((after job log).actors a) ((after job (more ++ log)).actors a) }
{}

/// The turns of a machine are those that the events of its actors added.
pub fn turns_are_those_of_the_actors()
    ensures { (job : Job) (log : Log) → IsLog job log → (after job log).turns ≡ spent_in (after job log) }
{}

/// The actors are a tree: calls and children invert each other, and a number for each actor, summed up over the children
/// of all calls, is its sum over all actors but `main`.
pub fn actors_are_a_tree()
    ensures tree { (job : Job) (log : Log) → IsLog job log → IsTree (after job log) }
    ensures sums { (job : Job) (log : Log) → IsLog job log → (g : ℕ → ℕ) → sum_below (after job log).count (λ a. over_calls g ((after job log).actors a)) + g 0 ≡ sum_below (after job log).count g }
{}

/// A result that is known stays as it is. A frame gives once, and finds its actor's result open then.
pub fn results_become_known_once()
    ensures stays { (job : Job) (more log : Log) → IsLog job (more ++ log) → (c : ℕ) (known : Known) → c < (after job log).count → known_at (after job log) (Some c) ≡ Some known → known_at (after job (more ++ log)) (Some c) ≡ Some known }
    ensures gives { (job : Job) (log : Log) (a turns : ℕ) (value : Held) → IsLog job log → Enabled job (after job log) (Reply a turns value) → fate_at (after job log) a ≡ Open }
{}

/// What a frame was told has its cause: at each of its halts it was told what is so in the machine. A call has its actor,
/// a result that was learnt is that of the call's actor, a new object has its word, and what was given is the result.
pub fn frames_are_told_what_is_so()
    ensures { (job : Job) (log : Log) → IsLog job log → (a : ℕ) → a < (after job log).count → AreSo job (after job log) a ((after job log).actors a).told }
{}

/// Arcs lead from calls to where their results are to come: to the ports of the calls that they are arguments of, and to
/// the results of the actors that made them.
pub fn arcs_lead_from_calls()
    ensures { (job : Job) (log : Log) → IsLog job log → ArcsLead (after job log) }
{}

/// What has come to a port is the value of the argument there: the words that were passed, or the result of the call that
/// was passed.
pub fn ports_have_their_arguments()
    ensures { (job : Job) (log : Log) → IsLog job log → (c place : ℕ) (known : Known) → c < (after job log).count → slice_get ((after job log).actors c).ports place ≡ Some (Some known) → HasArgument (after job log) c place known }
{}

/// An arc waits as long as its result isn't known, and is due from then on, until it is matched.
pub fn arcs_are_due_when_results_are_known()
    ensures { (job : Job) (log : Log) → IsLog job log → ArcsAreDue (after job log) }
{}

/// An actor's status tells of its arguments, its start, its frame and its turns. One that is ready or further has all its
/// arguments, and no trap among them; its body starts with their words, and one on an object with its number and the
/// object's state too. A frame that was put away needs the result of a call, and one that ended came to an end of its code.
pub fn actors_are_as_their_statuses_say()
    ensures { (job : Job) (log : Log) → IsLog job log → (a : ℕ) → AsItsStatus job ((after job log).actors a) }
{}

/// An actor fires once, if it has begun, and else not.
pub fn actors_fire_once()
    ensures { (job : Job) (log : Log) → IsLog job log → (a : ℕ) → times_fired a log ≡ once_if (has_begun ((after job log).actors a).status) }
{}

/// An arc leads to each port whose argument hasn't come, and to each result that is passed on.
pub fn missing_values_are_awaited()
    ensures { (job : Job) (log : Log) → IsLog job log → AllAwaited (after job log) }
{}

/// At most one arc leads to a port or to a result, so each is brought what it awaits once.
pub fn values_are_awaited_once()
    ensures { (job : Job) (log : Log) → IsLog job log → (to : Target) → times_awaited (after job log) to ≤ 1 }
{}

/// What has arrived are calls on objects. Each waits with all its arguments until it is accepted, and what was accepted has
/// arrived.
pub fn mailboxes_hold_complete_calls()
    ensures { (job : Job) (log : Log) → IsLog job log → MailIs (after job log) }
{}

//! Frames that are held outside a machine: that they are the frames of its actors, from one event to the next.
ghost use Rattle.std.specs.Prelude.{ℕ, ◌≡◌, ◌∷◌, List, Some, ℤ, false};
ghost use Rattle.mpl_value.specs.declared.known.Known.{Known};
ghost use Rattle.mdf_code.specs.Alone.{Held, Pending};
ghost use Rattle.mdf_code.specs.Frames.{Calls, Needs, Replies};
ghost use Rattle.mdf_code.specs.Told.{Beats, Halt, Stands, most_turns};
ghost use Rattle.mdf_core.specs.Enabled.{IsLog, ending_at};
ghost use Rattle.mdf_core.specs.Events.{Beat, Ending, Event, Fire, Learn, Reply, Resume, Send};
ghost use Rattle.mdf_core.specs.Out.{actor_of, is_actor};
ghost use Rattle.mdf_core.specs.Steps.{Log, after};
ghost use Rattle.mdf_core.specs.Worlds.{Job, World, known_at};
ghost use Rattle.mdf_vm.specs.Standing.{Awaits, HasEnded, IsReady, Ran, Tells};
ghost use Rattle.mdf_vm.specs.declared.frame.Frame as frames;
ghost use Rattle.mdf_vm.specs.declared.stop.Sent as calls;
ghost use Rattle.mdf_vm.specs.declared.stop.Stop as stops;
ghost use Rattle.mdf_vm.specs.declared.stop.Stop.TheVariants as stop;
ghost use Rattle.mdf_machine.specs.Answers.{StandsThere};
ghost use Rattle.mdf_machine.specs.Courses.{Course, world_of};
ghost use Rattle.mdf_machine.specs.Frames.{Begins, HasLearnt, IsFrameAt};
ghost use Rattle.mdf_machine.specs.FramesOut.{IsOut};
ghost use Rattle.mdf_machine.specs.MakingCalls.{StopsAtCall};
ghost use Rattle.mdf_machine.specs.RightCourses.{IsRight};

/// A frame that begins is out.
pub fn frames_that_begin_are_out()
    ensures { (job : Job) (log : Log) (a : ℕ) (f : frames.Frame) → IsLog job (Fire a ∷ log) → Begins job.image ((after job log).actors a).start f → IsOut job (after job (Fire a ∷ log)) a f }
{}

/// A frame that is out runs to where its actor's frame stops, and its turns are those since the actor's last event.
pub fn frames_that_are_out_stop()
    ensures stops { (job : Job) (w : World) (a : ℕ) (f g : frames.Frame) (why : stops.Stop) → IsOut job w a f → Ran job.image most_turns f why g → (halt : Halt) × Tells why halt × IsFrameAt job w a g.turns halt g }
    ensures calls { (job : Job) (w : World) (a turns : ℕ) (halt : Halt) (f : frames.Frame) (sent : calls.Sent) → IsFrameAt job w a turns halt f → Tells (stop.Call sent) halt → StopsAtCall job w a turns sent }
{}

/// A frame whose stop was an event is out again, with its turns taken.
pub fn frames_that_were_told_are_out()
    ensures called { (job : Job) (log : Log) (a turns callee member : ℕ) (object : ℤ) (arguments : List Held) (f : frames.Frame) → IsLog job (Send a turns callee member object arguments ∷ log)
        → IsFrameAt job (after job log) a turns (Stands (Calls member object arguments)) f → IsOut job (after job (Send a turns callee member object arguments ∷ log)) a (record f { turns = 0 }) }
    ensures gave { (job : Job) (log : Log) (a turns : ℕ) (value : Held) (f : frames.Frame) → IsLog job (Reply a turns value ∷ log)
        → IsFrameAt job (after job log) a turns (Stands (Replies value)) f → IsOut job (after job (Reply a turns value ∷ log)) a (record f { turns = 0 }) }
    ensures beaten { (job : Job) (log : Log) (a turns : ℕ) (f : frames.Frame) → IsLog job (Beat a ∷ log) → IsFrameAt job (after job log) a turns Beats f → IsOut job (after job (Beat a ∷ log)) a (record f { turns = 0 }) }
    ensures learnt { (job : Job) (log : Log) (a turns call : ℕ) (known : Known) (f g : frames.Frame) → IsLog job (Learn a turns call ∷ log) → known_at (after job log) (((after job log).actors a).child call) ≡ Some known
        → IsFrameAt job (after job log) a turns (Stands (Needs (Pending call))) f → HasLearnt call known f g → g.turns ≡ 0 → IsOut job (after job (Learn a turns call ∷ log)) a g }
{}

/// A frame that was put away and goes out again stands at its need, and no turn of it is left to be counted.
pub fn frames_that_resume_need_as_before()
    ensures { (job : Job) (log : Log) (a : ℕ) (f : frames.Frame) → IsLog job (Resume a ∷ log) → StandsThere (record { job = job; log = log }) a f
        → (call : ℕ) × IsFrameAt job (after job (Resume a ∷ log)) a 0 (Stands (Needs (Pending call))) f }
{}

/// An event that isn't of its actor leaves a frame out.
pub fn frames_stay_out()
    ensures { (job : Job) (e : Event) (log : Log) (a : ℕ) (f : frames.Frame) → IsLog job (e ∷ log) → is_actor a (actor_of e) ≡ false → IsOut job (after job log) a f → IsOut job (after job (e ∷ log)) a f }
{}

/// A frame that is out is ready to run. One that stands at a need awaits that result, and one that stands at an end is over.
pub fn frames_that_are_out_are_ready()
    ensures ready { (course : Course) (a : ℕ) (f : frames.Frame) → IsRight course → IsOut course.job (world_of course) a f → IsReady f }
    ensures awaits { (job : Job) (w : World) (a turns call : ℕ) (f : frames.Frame) → IsFrameAt job w a turns (Stands (Needs (Pending call))) f → Awaits call f }
    ensures ends { (job : Job) (w : World) (a turns : ℕ) (halt : Halt) (ending : Ending) (f : frames.Frame) → IsFrameAt job w a turns halt f → ending_at halt ≡ Some ending → HasEnded f.last }
{}

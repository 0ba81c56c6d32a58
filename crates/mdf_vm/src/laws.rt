ghost use Rattle.std.specs.Prelude.{◌≡◌, ℕ, List};
ghost use Rattle.mpl_value.specs.declared.body.BodyStart.{BodyStart};
ghost use Rattle.mdf_code.specs.declared.raw.RawImage.{RawImage};
ghost use Rattle.mdf_code.specs.Alone.{Pending};
ghost use Rattle.mdf_code.specs.Frames.{Needs};
ghost use Rattle.mdf_code.specs.Told.{HaltsNext, Stands, Stood, Told, calls_made};
ghost use Rattle.mdf_vm.specs.OnTheWay.{BeginsTheWay, ComesToHalt, GoesFurther};
ghost use Rattle.mdf_vm.specs.Standing.{Awaits, alone_of, last_at};
ghost use Rattle.mdf_vm.specs.declared.frame.Frame as frames;

/// A frame that has made the calls of which it was told, and needs a result, awaits the result of one of them: its number
/// need not be tested.
pub fn frames_await_results_of_their_calls()
    ensures { (image : RawImage) (start : BodyStart) (told : List Told) (stood : Stood) (number : ℕ) (f : frames.Frame) → HaltsNext image start told stood → stood.halt ≡ Stands (Needs (Pending number)) → f.last ≡ last_at stood.halt → (alone_of f).calls ≡ calls_made told → Awaits number f }
{}

/// A frame that ran until no memory was left is on its way to where it halts next, by what it was told, and may run again
/// with the turns that are left. So however often it is run, it comes to that halt, with all turns since what it was told
/// last.
pub fn frames_that_ran_out_may_run_again()
    ensures begins { BeginsTheWay }
    ensures further { GoesFurther }
    ensures halts { ComesToHalt }
{}

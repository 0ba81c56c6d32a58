//! Frames in code, and the bodies that they are of: where a frame goes on from, where it halts, and how it goes on when it
//! is told what its halt asks for.
ghost use Rattle.std.specs.Prelude.{ℕ, ◌≡◌, ◌+◌, ◌∷◌, [], List, Some, ℤ};
ghost use Rattle.mpl_value.specs.declared.body.BodyStart.{BodyStart};
ghost use Rattle.mpl_value.specs.declared.known.Known.{Known};
ghost use Rattle.mdf_code.specs.declared.raw.RawImage.{RawImage};
ghost use Rattle.mdf_code.specs.Alone.{Held, Pending};
ghost use Rattle.mdf_code.specs.Frames.{Calls, Needs, Replies};
ghost use Rattle.mdf_code.specs.Told.{Beaten, Beats, Called, Gave, HaltsNext, Learnt, Stands, Stood, Told, most_turns};
ghost use Rattle.mdf_vm.specs.Standing.{Ran, Tells};
ghost use Rattle.mdf_vm.specs.declared.frame.Frame as frames;
ghost use Rattle.mdf_vm.specs.declared.stop.Stop as stops;
ghost use Rattle.mdf_machine.specs.Frames.{Begins, GoesOn, HasLearnt, StandsAt};

/// A frame at the start of its body goes on from there.
pub fn frames_begin_where_bodies_do()
    ensures { (image : RawImage) (start : BodyStart) (f : frames.Frame) → Begins image start f → GoesOn image start [] f }
{}

/// A frame that runs comes to where the body halts next, and its stop tells the halt.
pub fn frames_run_to_where_they_halt()
    ensures { (image : RawImage) (start : BodyStart) (told : List Told) (f g : frames.Frame) (stop : stops.Stop) → GoesOn image start told f → Ran image most_turns f stop g
        → (stood : Stood) × StandsAt image start told stood g × Tells stop stood.halt × (g.turns ≡ f.turns + stood.turns) }
{}

/// Where a frame stands its body halts next.
pub fn frames_stand_where_bodies_halt()
    ensures { (image : RawImage) (start : BodyStart) (told : List Told) (stood : Stood) (f : frames.Frame) → StandsAt image start told stood f → HaltsNext image start told stood }
{}

/// A frame goes on when it is told that its call was made, that its result was taken or that its turns were counted, and
/// when it learns the result that it needs.
pub fn frames_that_are_told_go_on()
    ensures called { (image : RawImage) (start : BodyStart) (told : List Told) (stood : Stood) (f : frames.Frame) (member : ℕ) (object : ℤ) (arguments : List Held)
        → StandsAt image start told stood f → stood.halt ≡ Stands (Calls member object arguments) → GoesOn image start (Called ∷ told) f }
    ensures learnt { (image : RawImage) (start : BodyStart) (told : List Told) (stood : Stood) (f g : frames.Frame) (number : ℕ) (known : Known)
        → StandsAt image start told stood f → stood.halt ≡ Stands (Needs (Pending number)) → HasLearnt number known f g → GoesOn image start (Learnt known ∷ told) g }
    ensures gave { (image : RawImage) (start : BodyStart) (told : List Told) (stood : Stood) (f : frames.Frame) (value : Held)
        → StandsAt image start told stood f → stood.halt ≡ Stands (Replies value) → GoesOn image start (Gave ∷ told) f }
    ensures beaten { (image : RawImage) (start : BodyStart) (told : List Told) (stood : Stood) (f : frames.Frame)
        → StandsAt image start told stood f → stood.halt ≡ Beats → GoesOn image start (Beaten ∷ told) f }
{}

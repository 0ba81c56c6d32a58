ghost use Rattle.std.specs.Prelude.{◌≡◌, ◌≢◌, ◌≤◌, ◌<◌, ◌+◌, ℕ, ℤ, List, [], ◌∷◌, ◌++◌, None, Some, length, true};
ghost use Rattle.std.specs.FinMap.{FinMap};
ghost use Rattle.std.specs.Ordering.{nat_cmp};
ghost use Rattle.mpl_value.specs.declared.body.Arg.{Arg};
ghost use Rattle.mpl_value.specs.declared.body.BodyEnd.TheVariants as end;
ghost use Rattle.mpl_value.specs.declared.body.BodyStart.{BodyStart};
ghost use Rattle.mpl_value.specs.declared.body.MemberId.{MemberId};
ghost use Rattle.mpl_value.specs.declared.body.Yield.{Yield};
ghost use Rattle.mpl_value.specs.declared.known.Known.{Known};
ghost use Rattle.mpl_value.specs.Growing.{AreAmong, Grows, Stays};
ghost use Rattle.mdf_code.specs.declared.raw.RawImage.{RawImage};
ghost use Rattle.mdf_code.specs.Alone.{Held, StaysUnlessUnknown, frame_seen, framed, next_seen, seen_by};
ghost use Rattle.mdf_code.specs.Frames.{Around, Calls, Creates, Frame, Replies, Strays};
ghost use Rattle.mdf_code.specs.Images.{is_image};
ghost use Rattle.mdf_code.specs.Right.{Account, Right, StraysAsInPlace, StraysNowhere, Through};
ghost use Rattle.mdf_code.specs.Sizes.{RepliesFit, Sized, StartFits};
ghost use Rattle.mdf_code.specs.Steps.{step};
ghost use Rattle.mdf_code.specs.Told.{CanBeTold, HaltsNext, NamesMade, Stands, Stood, Told, calls_made, has_given};
ghost use Rattle.mdf_code.specs.Yields.{Yields, YieldsUnstrayed, in_place, member_is_regular};

/// The code of a body has one yield at most.
pub fn code_has_one_yield()
    ensures { (image : RawImage) (start : BodyStart) (replies : FinMap nat_cmp Known) (n : ℕ) (y z : Yield) → Yields image start replies n y → Yields image start replies n z → y ≡ z }
{}

/// The code of a body that has enough turns does the same with more.
pub fn more_turns_change_no_yield()
    ensures { (image : RawImage) (start : BodyStart) (replies : FinMap nat_cmp Known) (n m : ℕ) (y : Yield) → Yields image start replies n y → y.end ≢ end.Spent → n ≤ m → Yields image start replies m y }
{}

/// A yield that isn't spent has taken no more turns than its allowance, and one that is has taken one more.
pub fn code_counts_its_turns()
    ensures within { (image : RawImage) (start : BodyStart) (replies : FinMap nat_cmp Known) (n : ℕ) (y : Yield) → Yields image start replies n y → y.end ≢ end.Spent → y.turns ≤ n }
    ensures spent { (image : RawImage) (start : BodyStart) (replies : FinMap nat_cmp Known) (n : ℕ) (y : Yield) → Yields image start replies n y → y.end ≡ end.Spent → y.turns ≡ n + 1 }
{}

/// The step of a frame alone, seen through what is known of its results, is the step in place of the frame that is seen.
pub fn frames_step_as_they_are_seen()
    ensures { (knows : ℕ → Arg) (x : Around) (f : Frame Held) → next_seen (seen_by knows) (step (framed knows) x f) ≡ step in_place x (frame_seen (seen_by knows) f) }
{}

/// A frame alone halts next at one place at most, by what it was told.
pub fn frames_halt_at_one_place()
    ensures { (image : RawImage) (start : BodyStart) (told : List Told) (s t : Stood) → HaltsNext image start told s → HaltsNext image start told t → s ≡ t }
{}

/// The frame of an image halts, from its start and behind each thing that it can be told at a halt.
pub fn frames_of_images_halt()
    ensures starts { (image : RawImage) (start : BodyStart) → is_image image ≡ true → (stood : Stood) × HaltsNext image start [] stood }
    ensures goes_on { (image : RawImage) (start : BodyStart) (told : List Told) (stood : Stood) (more : Told) → is_image image ≡ true → HaltsNext image start told stood → CanBeTold stood.halt more → (next : Stood) × HaltsNext image start (more ∷ told) next }
{}

/// Where more is known, what was known before among it, a frame's step is the same, unless it strayed or needed what
/// wasn't known.
pub fn more_knowledge_changes_no_step()
    ensures { (knows more : ℕ → Arg) → ((result : ℕ) → Stays (knows result) (more result)) → (x : Around) (f : Frame Held) → StaysUnlessUnknown (seen_by knows) (step (framed knows) x f) (step (framed more) x f) }
{}

/// The code of an image comes to an end, from each start and with each allowance.
pub fn code_of_images_ends()
    ensures { (image : RawImage) (start : BodyStart) (replies : FinMap nat_cmp Known) (n : ℕ) → is_image image ≡ true → (y : Yield) × Yields image start replies n y }
{}

/// With more replies to its calls the yield of a body's code only grows, whatever the two allowances are, as long as
/// neither is spent. The first body met no stray instruction: such a yield is one of its yields.
pub fn more_replies_only_add_to_code()
    ensures grows { (image : RawImage) (start : BodyStart) (replies more : FinMap nat_cmp Known) (n m : ℕ) (y z : Yield) → AreAmong replies more → YieldsUnstrayed image start replies n y → Yields image start more m z → y.end ≢ end.Spent → z.end ≢ end.Spent → Grows y z }
    ensures unstrayed { (image : RawImage) (start : BodyStart) (replies : FinMap nat_cmp Known) (n : ℕ) (y : Yield) → YieldsUnstrayed image start replies n y → Yields image start replies n y }
{}

/// With more replies and no smaller allowance a body that is spent would take more turns than it had: so what is spent
/// stays spent with more replies.
pub fn spent_code_stays_spent()
    ensures beyond { (image : RawImage) (start : BodyStart) (replies more : FinMap nat_cmp Known) (n m : ℕ) (y z : Yield) → AreAmong replies more → n ≤ m → Yields image start replies n y → Yields image start more m z → y.end ≡ end.Spent → n < z.turns }
    ensures stays_spent { (image : RawImage) (start : BodyStart) (replies more : FinMap nat_cmp Known) (n : ℕ) (y z : Yield) → AreAmong replies more → Yields image start replies n y → Yields image start more n z → y.end ≡ end.Spent → z.end ≡ end.Spent }
{}

/// From a start whose arguments have the words of its formals, and with replies that have the words of the results that
/// they stand for, what the code of a body makes has its sizes: calls, result and state.
pub fn code_keeps_sizes()
    ensures { (image : RawImage) (start : BodyStart) (replies : FinMap nat_cmp Known) (n : ℕ) (y : Yield) → StartFits image start → Yields image start replies n y → RepliesFit image replies y.calls → Sized image start y }
{}

/// A frame alone names no results but those of the calls that it was told it made.
pub fn frames_name_results_of_their_calls()
    ensures { (image : RawImage) (start : BodyStart) (told : List Told) (stood : Stood) → HaltsNext image start told stood → NamesMade (calls_made told) stood.halt }
{}

/// `main` gives nothing, and no body gives twice. A regular member's body creates no objects and calls regular members
/// alone.
pub fn frames_do_what_their_bodies_may()
    ensures main { (image : RawImage) (start : BodyStart) (told : List Told) (stood : Stood) (value : Held) → HaltsNext image start told stood → start.member ≡ None → stood.halt ≢ Stands (Replies value) }
    ensures once { (image : RawImage) (start : BodyStart) (told : List Told) (stood : Stood) (value : Held) → HaltsNext image start told stood → has_given told ≡ true → stood.halt ≢ Stands (Replies value) }
    ensures creates { (image : RawImage) (start : BodyStart) (told : List Told) (stood : Stood) (member : MemberId) (class : ℕ) → HaltsNext image start told stood → start.member ≡ Some member → member_is_regular image member.0 ≡ true → stood.halt ≢ Stands (Creates class) }
    ensures calls { (image : RawImage) (start : BodyStart) (told : List Told) (stood : Stood) (member : MemberId) (called : ℕ) (object : ℤ) (arguments : List Held) → HaltsNext image start told stood → start.member ≡ Some member → member_is_regular image member.0 ≡ true → stood.halt ≡ Stands (Calls called object arguments) → member_is_regular image called ≡ true }
{}

/// A yield that isn't spent is what a frame alone comes through to that is told what is right at each halt, unless the
/// frame strays at a value that it didn't learn.
pub fn frames_come_through()
    ensures { (image : RawImage) (start : BodyStart) (replies : FinMap nat_cmp Known) (n : ℕ) (y : Yield) → StraysAsInPlace image start replies → Yields image start replies n y → y.end ≢ end.Spent → Through image start replies y }
{}

/// What a frame alone comes through to is the body's yield, with each allowance that its turns are within.
pub fn frames_that_come_through_yield()
    ensures { (image : RawImage) (start : BodyStart) (replies : FinMap nat_cmp Known) (n : ℕ) (y : Yield) → Through image start replies y → y.turns ≤ n → Yields image start replies n y }
{}

/// A frame alone that is told what is right strays nowhere, if its body strays nowhere where it runs alone with no more
/// known than the right answers.
pub fn frames_stray_with_bodies_alone()
    ensures { (image : RawImage) (start : BodyStart) (replies : FinMap nat_cmp Known) (told : List Told) (a : Account) (stood : Stood) → ((answers : ℕ → Arg) → ((call : ℕ) → Stays (answers call) (a.answers call)) → StraysNowhere image start answers) →
        Right image start replies told a → HaltsNext image start told stood → stood.halt ≢ Stands Strays }
{}

/// What a frame alone is told rightly is one list: two of the same length are the same, and so is what the body did; and
/// each is what the frame was told up to some halt that comes through to the end.
pub fn frames_are_told_one_list()
    ensures one { (image : RawImage) (start : BodyStart) (replies : FinMap nat_cmp Known) (told other : List Told) (a b : Account) → length told ≡ length other → Right image start replies told a → Right image start replies other b → (told ≡ other) × (a ≡ b) }
    ensures on_the_way { (image : RawImage) (start : BodyStart) (replies : FinMap nat_cmp Known) (y : Yield) (through : Through image start replies y) (told : List Told) (a : Account) → Right image start replies told a → (more : List Told) × (through.told ≡ more ++ told) }
{}

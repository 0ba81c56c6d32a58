ghost use Rattle.std.specs.Prelude.{◌≡◌, ℕ, ℤ, Bool, true, codes, List, flat_map, map, Some, pos};
ghost use Rattle.std.specs.FinMap.{empty};
ghost use Rattle.std.specs.List.{AllZip};
ghost use Rattle.mpl_ast.specs.declared.program.Program.{Program};
ghost use Rattle.mpl_value.specs.declared.body.BodyStart.{BodyStart};
ghost use Rattle.mpl_mean.specs.Accepted.{IsAcceptable};
ghost use Rattle.mpl_mean.specs.Laws.Sizes.{Every, StartFits};
ghost use Rattle.mpl_mean.specs.Meaning.ExpressionMeaning.{value_of};
ghost use Rattle.mpl_mean.specs.Meaning.DirectRun.{direct_run, main_start};
ghost use Rattle.mpl_mean.specs.Meaning.Layout.{Class, Member, classes_of, function_named};
ghost use Rattle.mpl_mean.specs.Pending.BodyWays.{stmts_ways};
ghost use Rattle.mpl_mean.specs.Pending.MayBePending.{MayBePending, function_ways, member_ways};
ghost use Rattle.mpl_mean.specs.Plain.Scopes.{main_env};
ghost use Rattle.mpl_mean.specs.Text.Weight.{is_light};
ghost use Rattle.mpl_mean.specs.TypeRules.Rules.{is_typed};
ghost use Rattle.mdf_core.specs.Choices.{choices};
ghost use Rattle.mdf_mean.specs.Guards.{choices_by, class_at};
ghost use Rattle.mpl_gen_code.specs.ExpressionCode.{PlainFunction, plain_functions};
ghost use Rattle.mpl_gen_code.specs.ProgramImage.{image_of, main_stmts};
ghost use Rattle.mdf_code.specs.Images.{is_image};
ghost use Rattle.mdf_code.specs.declared.raw.RawEntry.{RawEntry};
ghost use Rattle.mdf_code.specs.declared.raw.RawFunction.{RawFunction};
ghost use Rattle.mdf_code.specs.declared.raw.RawMember.{RawMember};
ghost use Rattle.mdf_code.specs.Right.{StraysAsInPlace};
ghost use Rattle.mdf_code.specs.Yields.{YieldsUnstrayed};
ghost use Rattle.mpl_gen_laws.specs.MarkedUses.{marked_uses, needs_in, needs_of_guard};
ghost use Rattle.mpl_gen_laws.specs.PrintedLines.{LinesHaveValues};
ghost use Rattle.mpl_gen_laws.specs.SameChoices.{SameChoice};

/// In a program that is well typed and no token of which weighs too much a class accepts the same calls in the image and in the
/// language. Where it has a `select`, its entries are those of the language, one beside the other: the same priority and
/// member, and the code of the guard holds where the language says that the guard does, for each state and arguments that
/// fit. It doesn't hold where the guard traps. A class without `select` has one entry of priority 0 for each member.
pub fn guard_code_holds_as_the_language_says()
    ensures { (p : Program) (marks : ℕ → Bool) → is_typed p ≡ true → is_light p ≡ true → (c : ℕ) (class : Class) → class_at p.declarations (pos c) ≡ Some class →
        AllZip (SameChoice p class) (choices (image_of p marks) c) (choices_by value_of p.declarations (pos c)) }
{}

/// The image of a well typed program is an image, whatever uses are marked, where each line that is printed has a value:
/// variables, states and results have few words, members few formals, each way round a loop passes a test, and guards compute
/// on words and jump forward. In an accepted program each line has a value, since the grammar asks for one.
pub fn images_of_programs_are_images()
    ensures typed { (p : Program) (marks : ℕ → Bool) → is_typed p ≡ true → LinesHaveValues p → is_image (image_of p marks) ≡ true }
    ensures accepted { (p : Program) (marks : ℕ → Bool) → IsAcceptable p → is_image (image_of p marks) ≡ true }
{}

/// In a well typed program where each use is marked that may find a pending or a trapped result, the code of `main` yields
/// what the program does directly, with each input and any number of turns.
pub fn main_runs_as_its_code()
    ensures { (p : Program) (marks : ℕ → Bool) → is_typed p ≡ true → ((node : ℕ) → MayBePending p node → marks node ≡ true) → (input : List ℤ) (turns : ℕ) →
        YieldsUnstrayed (image_of p marks) (main_start input) empty turns (direct_run p input turns) }
{}

/// In the code of a well typed program where each use is marked that may find a pending or a trapped result a frame alone
/// strays nowhere but where its body does in place, from a start that fits and without replies: what it loads it has learnt.
/// More marks change nothing.
pub fn frames_of_covered_programs_stray_nowhere()
    ensures { (p : Program) (marks : ℕ → Bool) → is_typed p ≡ true → ((node : ℕ) → MayBePending p node → marks node ≡ true) → (start : BodyStart) → StartFits p start →
        StraysAsInPlace (image_of p marks) start empty }
{}

/// In the image of a well typed program the code of `main`, and that of each function and member, needs a variable as often
/// as uses on the ways through its body are marked: once for each, and nowhere else. Guards need none.
pub fn needs_are_the_marked_uses()
    ensures main { (p : Program) (marks : ℕ → Bool) → is_typed p ≡ true →
        needs_in (image_of p marks).main.code ≡ marked_uses marks (stmts_ways (main_env p.declarations) (main_stmts (function_named (codes "main") p.declarations))) }
    ensures functions { (p : Program) (marks : ℕ → Bool) → is_typed p ≡ true →
        map (λ (f : RawFunction). needs_in f.body.code) (image_of p marks).functions
        ≡ map (λ (f : PlainFunction). marked_uses marks (function_ways p.declarations f.function)) (plain_functions p.declarations) }
    ensures members { (p : Program) (marks : ℕ → Bool) → is_typed p ≡ true →
        map (λ (m : RawMember). needs_in m.body.code) (image_of p marks).members
        ≡ flat_map (λ (class : Class). map (λ (m : Member). marked_uses marks (member_ways p.declarations class m)) class.members) (classes_of p.declarations) }
    ensures guards { (p : Program) (marks : ℕ → Bool) → Every (λ (entry : RawEntry). needs_of_guard entry.guard ≡ 0) (image_of p marks).entries }
{}

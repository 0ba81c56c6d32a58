ghost use Rattle.std.specs.Prelude.{◌≡◌, ℕ, Bool, true};
ghost use Rattle.std.specs.FinMap.{FinMap};
ghost use Rattle.std.specs.Ordering.{nat_cmp};
ghost use Rattle.mpl_ast.specs.declared.program.Program.{Program};
ghost use Rattle.mpl_value.specs.declared.body.BodyStart.{BodyStart};
ghost use Rattle.mpl_value.specs.declared.body.Yield.{Yield};
ghost use Rattle.mpl_value.specs.declared.known.Known.{Known};
ghost use Rattle.mpl_mean.specs.Laws.Sizes.{CallReplyFits, Every, RepliesFit, StartFits};
ghost use Rattle.mpl_mean.specs.Meaning.BodyMeaning.{yield_of};
ghost use Rattle.mpl_mean.specs.Pending.MayBePending.{MayBePending};
ghost use Rattle.mpl_mean.specs.TypeRules.Rules.{is_typed};
ghost use Rattle.mpl_checked.specs.Checked.CheckedBodies.{checked_yield};
ghost use Rattle.mpl_checked.specs.Checked.CheckedSteps.{Meant};
ghost use Rattle.mdf_code.specs.Yields.{YieldsUnstrayed};
ghost use Rattle.mpl_gen_code.specs.ProgramFits.{ProgramFits};
ghost use Rattle.mpl_gen_code.specs.ProgramImage.{image_of};

/// The code of each body yields what the body means, its turns included, whatever uses are marked, as long as the meaning
/// doesn't go astray: from a start that fits, with replies that fit and any number of turns. It meets no instruction that
/// can't stand there.
pub fn code_does_what_bodies_mean()
    ensures { (p : Program) (marks : ℕ → Bool) (start : BodyStart) (replies : FinMap nat_cmp Known) (n : ℕ) (y : Yield) → ProgramFits p.declarations marks → StartFits p start →
        checked_yield marks p start replies n ≡ Meant y → Every (CallReplyFits p.declarations replies) y.calls → YieldsUnstrayed (image_of p marks) start replies n y }
{}

/// In a well typed program the bodies are such that their code finds what it takes.
pub fn typed_programs_fit()
    ensures { (p : Program) (marks : ℕ → Bool) → is_typed p ≡ true → ProgramFits p.declarations marks }
{}

/// In a well typed program where each use is marked that may find a pending or a trapped result, the code of each body yields
/// what the body means, from a start that fits, with replies that fit and any number of turns. More marks change nothing.
pub fn marked_code_does_what_programs_mean()
    ensures { (p : Program) (marks : ℕ → Bool) → is_typed p ≡ true → ((node : ℕ) → MayBePending p node → marks node ≡ true) →
        (start : BodyStart) (replies : FinMap nat_cmp Known) (n : ℕ) → StartFits p start → RepliesFit p start replies n → YieldsUnstrayed (image_of p marks) start replies n (yield_of p start replies n) }
{}

ghost use Rattle.std.specs.Prelude.{◌≡◌, ℕ, Bool, true};
ghost use Rattle.std.specs.FinMap.{FinMap};
ghost use Rattle.std.specs.Ordering.{nat_cmp};
ghost use Rattle.mpl_ast.specs.declared.program.Program.{Program};
ghost use Rattle.mpl_value.specs.declared.body.BodyStart.{BodyStart};
ghost use Rattle.mpl_value.specs.declared.known.Known.{Known};
ghost use Rattle.mpl_mean.specs.Meaning.BodyMeaning.{yield_of};
ghost use Rattle.mpl_mean.specs.Pending.MayBePending.{MayBePending};
ghost use Rattle.mpl_mean.specs.TypeRules.Rules.{is_typed};
ghost use Rattle.mpl_checked.specs.Checked.CheckedBodies.{checked_yield};
ghost use Rattle.mpl_checked.specs.Checked.CheckedSteps.{Meant};

/// In a well typed program where each use is marked that may find a pending or a trapped result, nothing goes astray: from any start, with any
/// replies and turns, the checked meaning is the meaning. More marks change nothing.
pub fn marked_uses_suffice()
    ensures { (p : Program) (marks : ℕ → Bool) → is_typed p ≡ true → ((node : ℕ) → MayBePending p node → marks node ≡ true) →
        (start : BodyStart) (replies : FinMap nat_cmp Known) (turns : ℕ) → checked_yield marks p start replies turns ≡ Meant (yield_of p start replies turns) }
{}

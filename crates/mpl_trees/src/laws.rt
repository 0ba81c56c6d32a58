ghost use Rattle.std.specs.Prelude.{◌≡◌, ◌≤◌, ◌+◌, ◌*◌, ℕ, List, length, Some, true};
ghost use Rattle.mpl_ast.specs.declared.program.Program.{Program};
ghost use Rattle.mpl_ast.specs.declared.token.Token.{Token};
ghost use Rattle.mpl_mean.specs.Text.ProgramText.{spells};
ghost use Rattle.mpl_trees.specs.Programs.{take_program};

/// The parser takes every program from its tokens, where the limit leaves twelve numbers for each.
pub fn programs_are_taken()
    ensures { (p : Program) (tokens : List Token) (limit : ℕ) → spells p tokens ≡ true → 12 * length tokens + 1 ≤ limit → take_program limit tokens ≡ Some p }
{}

/// No two programs have the same tokens.
pub fn tokens_have_one_program()
    ensures { (p q : Program) (tokens : List Token) → spells p tokens ≡ true → spells q tokens ≡ true → p ≡ q }
{}

ghost use Rattle.std.specs.Prelude.{ℕ, Bool};
ghost use Rattle.mpl_ast.specs.declared.program.Program.{Program};
ghost use Rattle.mpl_mean.specs.Accepted.{IsAcceptable};
ghost use Rattle.mpl_gen_code.specs.ProgramImage.{image_of};
ghost use Rattle.mpl_gen_bounds.specs.ImageFits.{ImageFits};

/// In the image of an accepted program each number of a variable, of words or of a place has 32 bits, and each priority 8,
/// whatever uses are marked: a program has no more forms than tokens, and the code of a form has at most five instructions.
pub fn numbers_of_images_are_small()
    ensures { (p : Program) (marks : ℕ → Bool) → IsAcceptable p → ImageFits (image_of p marks) }
{}

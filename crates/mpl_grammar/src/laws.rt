ghost use Rattle.std.specs.Prelude.{◌≡◌, ◌++◌, ◌∷◌, ℕ, List, length, true};
ghost use Rattle.mpl_ast.specs.declared.program.Program.{Program};
ghost use Rattle.mpl_ast.specs.declared.token.Token.{Token};
ghost use Rattle.mpl_mean.specs.Text.Begins.{weight_behind};
ghost use Rattle.mpl_mean.specs.Text.ParseFaults.{HasLightProgram, IsSyntaxFault, IsTooDeep};
ghost use Rattle.mpl_mean.specs.Text.ProgramText.{spells};
ghost use Rattle.mpl_mean.specs.Text.Weight.{weights};

/// A program has a weight for each of its tokens.
pub fn tokens_have_a_weight_each()
    ensures { (p : Program) (tokens : List Token) → spells p tokens ≡ true → length (weights p) ≡ length tokens }
{}

/// The weight at a token depends on the tokens up to it alone.
pub fn weights_look_back()
    ensures { (p q : Program) (front : List Token) (t : Token) (after other : List Token) →
        spells p (front ++ t ∷ after) ≡ true → spells q (front ++ t ∷ other) ≡ true → weight_behind front p ≡ weight_behind front q }
{}

/// Tokens have at most one fault, and none where they are those of a light program.
pub fn faults_exclude_one_another()
    ensures syntax { (tokens : List Token) (end a b : ℕ) → IsSyntaxFault tokens end a → IsSyntaxFault tokens end b → a ≡ b }
    ensures depth { (tokens : List Token) (a b : ℕ) → IsTooDeep tokens a → IsTooDeep tokens b → a ≡ b }
    ensures not_both { (tokens : List Token) (end a b : ℕ) → IsSyntaxFault tokens end a → IsTooDeep tokens b → ⊥ }
    ensures no_syntax { (tokens : List Token) (end at : ℕ) → HasLightProgram tokens → IsSyntaxFault tokens end at → ⊥ }
    ensures no_depth { (tokens : List Token) (at : ℕ) → HasLightProgram tokens → IsTooDeep tokens at → ⊥ }
{}

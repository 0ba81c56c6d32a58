ghost use Rattle.std.specs.Prelude.{◌≡◌, ℕ, ℤ, List, Result};
ghost use Rattle.mentat_input.specs.Reads.{IsDecided, IsInput};
ghost use Rattle.mentat_input.specs.declared.fault.InputFault.{InputFault};

/// An input is answered by its numbers, as too long, or by its first bad word, and by no two of these.
pub fn inputs_have_one_answer()
    ensures { (bytes : List ℕ) (r q : Result (List ℤ) InputFault) → IsDecided r → IsDecided q → IsInput bytes r → IsInput bytes q → r ≡ q }
{}

//! Inputs, and the numbers in them.
ghost use Rattle.std.specs.Prelude.{◌≡◌, ◌-◌, ◌^◌, [], ◌∷◌, codes, Ok, Err, pos, negsuc};
ghost use Rattle.mentat_input.specs.Words.{numbers_of};

/// What some inputs are, a word at a time.
pub fn inputs_have_their_numbers()
    ensures nothing { numbers_of [] ≡ Ok [] }
    ensures blanks_alone { numbers_of (32 ∷ 9 ∷ 10 ∷ 13 ∷ []) ≡ Ok [] }
    ensures no_blank_behind { numbers_of (codes "1 23") ≡ Ok (pos 1 ∷ pos 23 ∷ []) }
    ensures each_blank { numbers_of (49 ∷ 9 ∷ 50 ∷ 13 ∷ 10 ∷ 51 ∷ 32 ∷ []) ≡ Ok (pos 1 ∷ pos 2 ∷ pos 3 ∷ []) }
    ensures leading_zeros { numbers_of (codes "-07 000") ≡ Ok (negsuc 6 ∷ pos 0 ∷ []) }
    ensures greatest { numbers_of (codes "9223372036854775807") ≡ Ok (pos (2 ^ 63 - 1) ∷ []) }
    ensures too_great { numbers_of (codes "9223372036854775808") ≡ Err 0 }
    ensures least { numbers_of (codes "-9223372036854775808") ≡ Ok (negsuc (2 ^ 63 - 1) ∷ []) }
    ensures too_small { numbers_of (codes " -9223372036854775809") ≡ Err 1 }
    ensures dash_alone { numbers_of (codes "-") ≡ Err 0 }
    ensures letter { numbers_of (codes "5 -3 x") ≡ Err 5 }
    ensures behind_digits { numbers_of (codes "5 3x x") ≡ Err 2 }
    ensures plus_sign { numbers_of (codes "5  +3") ≡ Err 3 }
{}

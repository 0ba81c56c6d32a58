//! What the code of small images does, each within a hundred steps.
ghost use Rattle.std.specs.Prelude.{◌≡◌, ◌==◌, ℤ, List, [], ◌∷◌, ◌++◌, Some, None, codes, count_by, int_lt, pos, true, false};
ghost use Rattle.std.specs.FinMap.{FinMap, empty, get};
ghost use Rattle.std.specs.Ordering.{nat_cmp};
ghost use Rattle.mpl_value.specs.declared.body.Arg.TheVariants.{Know, Unknown};
ghost use Rattle.mpl_value.specs.declared.body.BodyEnd.TheVariants.{Done, Spent, Waits};
ghost use Rattle.mpl_value.specs.declared.body.BodyResult.TheVariants as given;
ghost use Rattle.mpl_value.specs.declared.known.Known.{Known};
ghost use Rattle.mpl_value.specs.declared.known.Known.TheVariants as known;
ghost use Rattle.mpl_value.specs.declared.known.TrapKind.TheVariants.{DivZero, Index, NoInput, NoReply, Overflow, Twice, Unbound};
ghost use Rattle.std.specs.Option.{option_map};
ghost use Rattle.mdf_code.specs.Alone.{Pending, Words};
ghost use Rattle.mdf_code.specs.Frames.{Calls, Ends, Needs, Traps};
ghost use Rattle.mdf_code.specs.Guards.{holds};
ghost use Rattle.mdf_code.specs.Images.{is_image};
ghost use Rattle.mdf_code.specs.Listing.{listing_of};
ghost use Rattle.mdf_code.specs.Right.{Through};
ghost use Rattle.mdf_code.specs.SmallBodies.{asks_no_object, counts_down, does_nothing, doubles, endless, forces_nothing, gives, goes_round, jumps_back, member_start, on_first, overflows, passes_on, prints_unawaited, puts_and_gets, reads_element, reads_input, runs_past, runs_past_function, stacks_words, sum_of_squares, traps, yields};
ghost use Rattle.mdf_code.specs.SmallCode.{main_start, number, trap};
ghost use Rattle.mdf_code.specs.Told.{Beaten, Called, Learnt, Stands, next_within};
ghost use Rattle.mdf_code.specs.Yields.{regular_start, yield_within};

/// Calls on regular members in place: their results, and the turns that they take.
pub fn code_calls_in_place()
    ensures sum_of_squares { (replies : FinMap nat_cmp Known) → yield_within 100 sum_of_squares (main_start []) replies 7 ≡ Some (yields ("25" ∷ []) 7 Done) }
    ensures a_turn_too_few { (replies : FinMap nat_cmp Known) → yield_within 100 sum_of_squares (main_start []) replies 6 ≡ Some (yields [] 7 Spent) }
    ensures forwarded { (replies : FinMap nat_cmp Known) → yield_within 100 (passes_on 2) (main_start []) replies 9 ≡ Some (yields ("4" ∷ []) 5 Done) }
    ensures trapped { (replies : FinMap nat_cmp Known) → yield_within 100 (passes_on 0) (main_start []) replies 9 ≡ Some (yields [] 5 (traps DivZero 2)) }
    ensures square { (replies : FinMap nat_cmp Known) → yield_within 100 sum_of_squares (regular_start 0 (pos 5 ∷ [])) replies 1 ≡ Some (gives (given.Known (known.Value (pos 25 ∷ []))) [] Done) }
{}

/// Loops and plain functions, which spend turns.
pub fn code_spends_turns()
    ensures counts_down { (replies : FinMap nat_cmp Known) → yield_within 100 counts_down (main_start []) replies 5 ≡ Some (yields ("3" ∷ "2" ∷ "1" ∷ []) 5 Done) }
    ensures doubles { (replies : FinMap nat_cmp Known) → yield_within 100 doubles (main_start []) replies 8 ≡ Some (yields ("8" ∷ []) 8 Done) }
    ensures endless { (replies : FinMap nat_cmp Known) → yield_within 100 endless (main_start []) replies 4 ≡ Some (yields [] 5 Spent) }
{}

/// Traps end a body, at their lines.
pub fn code_traps()
    ensures index { (replies : FinMap nat_cmp Known) → yield_within 100 (reads_element 2) (main_start []) replies 1 ≡ Some (yields [] 1 (traps Index 7)) }
    ensures element { (replies : FinMap nat_cmp Known) → yield_within 100 (reads_element 1) (main_start []) replies 1 ≡ Some (yields ("0" ∷ []) 1 Done) }
    ensures overflow { (replies : FinMap nat_cmp Known) → yield_within 100 overflows (main_start []) replies 1 ≡ Some (yields [] 1 (traps Overflow 3)) }
    ensures unbound { (replies : FinMap nat_cmp Known) → yield_within 100 asks_no_object (main_start []) replies 1 ≡ Some (yields [] 1 (traps Unbound 4)) }
    ensures no_input { (replies : FinMap nat_cmp Known) → yield_within 100 reads_input (main_start []) replies 1 ≡ Some (yields [] 1 (traps NoInput 5)) }
    ensures input { (replies : FinMap nat_cmp Known) → yield_within 100 reads_input (main_start (pos 0 ∷ [])) replies 1 ≡ Some (yields ("false" ∷ []) 1 Done) }
    ensures no_reply { (replies : FinMap nat_cmp Known) → yield_within 100 forces_nothing (main_start []) replies 3 ≡ Some (yields [] 3 (traps NoReply 4)) }
    ensures twice { (replies : FinMap nat_cmp Known) → yield_within 100 puts_and_gets (member_start 2 [] (pos 3 ∷ [])) replies 1 ≡ Some (gives (given.Known (known.Value (pos 3 ∷ []))) (pos 3 ∷ []) (traps Twice 5)) }
{}

/// A body ends without a result where it runs past the end of its code, also in a plain function.
pub fn code_ends_past_its_end()
    ensures main { (replies : FinMap nat_cmp Known) → yield_within 100 runs_past (main_start []) replies 1 ≡ Some (yields [] 1 Done) }
    ensures function { (replies : FinMap nat_cmp Known) → yield_within 100 runs_past_function (main_start []) replies 2 ≡ Some (yields [] 2 Done) }
{}

/// Calls on a persistent object, with replies and without.
pub fn code_awaits_replies()
    ensures two_replies { (replies : FinMap nat_cmp Known) → get replies 1 ≡ Some (known.Value []) → get replies 2 ≡ Some (known.Value (pos 7 ∷ [])) →
        yield_within 100 puts_and_gets (main_start []) replies 5 ≡ Some (record (yields ("7" ∷ []) 5 Done) { calls = on_first 1 0 (number 7 ∷ []) ∷ on_first 2 1 [] ∷ on_first 3 0 (number 7 ∷ []) ∷ []; creations = pos 1 ∷ [] }) }
    ensures no_reply { (replies : FinMap nat_cmp Known) → get replies 2 ≡ None →
        yield_within 100 puts_and_gets (main_start []) replies 5 ≡ Some (record (yields [] 5 Waits) { calls = on_first 1 0 (number 7 ∷ []) ∷ on_first 2 1 [] ∷ on_first 3 0 (Unknown ∷ []) ∷ []; creations = pos 1 ∷ [] }) }
    ensures put { (replies : FinMap nat_cmp Known) → yield_within 100 puts_and_gets (member_start 0 (pos 7 ∷ []) (pos 3 ∷ [])) replies 1 ≡ Some (gives (given.Known (known.Value [])) (pos 7 ∷ []) Done) }
    ensures get { (replies : FinMap nat_cmp Known) → yield_within 100 puts_and_gets (member_start 1 [] (pos 3 ∷ [])) replies 1 ≡ Some (gives (given.Known (known.Value (pos 3 ∷ []))) (pos 3 ∷ []) Done) }
{}

/// A body that strayed, since what it loads isn't known, goes on with more replies.
pub fn strays_may_go_on()
    ensures unknown { (replies : FinMap nat_cmp Known) → get replies 1 ≡ None →
        yield_within 100 prints_unawaited (main_start []) replies 3 ≡ Some (record (yields [] 3 Done) { calls = on_first 1 1 [] ∷ []; creations = pos 1 ∷ [] }) }
    ensures known { (replies : FinMap nat_cmp Known) → get replies 1 ≡ Some (known.Value (pos 7 ∷ [])) →
        yield_within 100 prints_unawaited (main_start []) replies 3 ≡ Some (record (yields ("7" ∷ []) 3 Done) { calls = on_first 1 1 [] ∷ []; creations = pos 1 ∷ [] }) }
{}

/// Guards read formals and the state, for all of these, and don't hold where they trap or stack too many words.
pub fn guards_decide()
    ensures less { (x s : ℤ) → holds puts_and_gets 0 ((x ∷ []) ∷ []) (s ∷ []) ≡ int_lt s x }
    ensures divides { holds puts_and_gets 1 ((pos 6 ∷ []) ∷ []) (pos 3 ∷ []) ≡ true }
    ensures traps { (x : ℤ) → holds puts_and_gets 1 ((x ∷ []) ∷ []) (pos 0 ∷ []) ≡ false }
    ensures unguarded { (formals : List (List ℤ)) (state : List ℤ) → holds puts_and_gets 2 formals state ≡ true }
    ensures no_entry { (formals : List (List ℤ)) (state : List ℤ) → holds puts_and_gets 3 formals state ≡ false }
    ensures words { holds (stacks_words 127) 0 [] [] ≡ true }
    ensures too_many_words { holds (stacks_words 128) 0 [] [] ≡ false }
{}

/// A listing has a line for each instruction.
pub fn listings_have_lines()
    ensures nothing { listing_of does_nothing ≡ codes "end 1" ++ 10 ∷ [] }
    ensures squares { count_by (λ byte. byte == 10) (listing_of sum_of_squares) ≡ 24 }
{}

/// What an image keeps.
pub fn images_keep_their_form()
    ensures small { is_image sum_of_squares ≡ true }
    ensures loops { is_image counts_down ≡ true }
    ensures functions { is_image doubles ≡ true }
    ensures guards { is_image puts_and_gets ≡ true }
    ensures past_a_test { is_image goes_round ≡ false }
    ensures backward_guard { is_image jumps_back ≡ false }
{}

/// A frame alone: `main` of the sum of two squares, by what it is told, and a loop that beats.
pub fn frames_halt()
    ensures first { option_map (λ s. s.halt) (next_within 100 sum_of_squares (main_start []) []) ≡ Some (Stands (Calls 0 (pos 0) (Words (pos 3 ∷ []) ∷ []))) }
    ensures third { option_map (λ s. s.halt) (next_within 100 sum_of_squares (main_start []) (Called ∷ Called ∷ [])) ≡ Some (Stands (Calls 1 (pos 0) (Pending 1 ∷ Pending 2 ∷ []))) }
    ensures needs { option_map (λ s. s.halt) (next_within 100 sum_of_squares (main_start []) (Called ∷ Called ∷ Called ∷ [])) ≡ Some (Stands (Needs (Pending 3))) }
    ensures ends { option_map (λ s. s.halt) (next_within 100 sum_of_squares (main_start []) (Learnt (known.Value (pos 25 ∷ [])) ∷ Called ∷ Called ∷ Called ∷ [])) ≡ Some (Stands (Ends 0)) }
    ensures traps { option_map (λ s. s.halt) (next_within 100 sum_of_squares (main_start []) (Learnt (known.Trapped (trap DivZero 2)) ∷ Called ∷ Called ∷ Called ∷ [])) ≡ Some (Stands (Traps (trap DivZero 2))) }
    ensures not_told { next_within 100 sum_of_squares (main_start []) (Beaten ∷ []) ≡ None }
    ensures beats { option_map (λ s. s.turns) (next_within 1100 endless (main_start []) (Beaten ∷ [])) ≡ Some 256 }
{}

/// What `main` of the sum of two squares comes through to alone, by the results of its three calls, is its yield.
pub fn a_frame_comes_through()
    ensures { (replies : FinMap nat_cmp Known) → Through sum_of_squares (main_start []) replies (yields ("25" ∷ []) 7 Done) }
{}

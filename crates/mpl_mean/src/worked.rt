//! Small programs, and what they do. Each is written as a tree below its source, in `specs`.
ghost use Rattle.std.specs.Prelude.{◌≡◌, [], ◌∷◌, Some, negsuc, pos};
ghost use Rattle.std.specs.FinMap.{FinMap, empty, get};
ghost use Rattle.std.specs.Ordering.{nat_cmp};
ghost use Rattle.mpl_value.specs.declared.body.Arg.TheVariants.{Know, Unknown};
ghost use Rattle.mpl_value.specs.declared.body.BodyEnd.TheVariants.{Done, Spent, Waits};
ghost use Rattle.mpl_value.specs.declared.body.BodyResult.TheVariants as given;
ghost use Rattle.mpl_value.specs.declared.known.Known.{Known};
ghost use Rattle.mpl_value.specs.declared.known.Known.TheVariants as known;
ghost use Rattle.mpl_value.specs.declared.known.TrapKind.TheVariants.{DivZero, Index, NoInput, NoReply, Overflow, Twice, Unbound};
ghost use Rattle.mpl_mean.specs.Meaning.BodyMeaning.{yield_of};
ghost use Rattle.mpl_mean.specs.SmallPrograms.CallPrograms.{fib_of_ten, forced_division, goes_on_after_its_result, leftmost_trap_wins, one_result_twice, sum_of_squares, unforced_division};
ghost use Rattle.mpl_mean.specs.Meaning.DirectRun.{direct_run, main_start};
ghost use Rattle.mpl_mean.specs.SmallPrograms.LoopPrograms.{endless, products_of_input};
ghost use Rattle.mpl_mean.specs.SmallPrograms.OrderPrograms.{function_in_function, inner_names, left_decides, parentheses_force, quotient_to_zero, receiver_first, right_side_first, variable_before_index};
ghost use Rattle.mpl_mean.specs.SmallPrograms.ReplyPrograms.{gets_and_puts, passes_it_back};
ghost use Rattle.mpl_mean.specs.SmallPrograms.TrapPrograms.{asks_for_input, function_without_result, index_outside, no_object, no_result, second_result, too_large};
ghost use Rattle.mpl_mean.specs.SmallPrograms.WorkedYields.{gives, member_start, on_first, regular_start, trapped, traps, yields, yields_with};

/// Calls on regular objects: their results, and the turns that they take.
pub fn calls_have_their_yields()
    ensures sum_of_squares { direct_run sum_of_squares [] 5 ≡ yields ("25" ∷ []) 5 Done }
    ensures a_turn_too_few { direct_run sum_of_squares [] 4 ≡ yields [] 5 Spent }
    ensures fib_of_ten { direct_run fib_of_ten [] 531 ≡ yields ("55" ∷ []) 531 Done }
    ensures one_result_twice { direct_run one_result_twice [] 5 ≡ yields ("18" ∷ []) 5 Done }
    ensures unforced_division { direct_run unforced_division [] 3 ≡ yields ("1" ∷ []) 3 Done }
    ensures forced_division { direct_run forced_division [] 3 ≡ yields ("1" ∷ []) 3 (traps DivZero 2) }
    ensures leftmost_trap_wins { direct_run leftmost_trap_wins [] 6 ≡ yields [] 6 (traps Overflow 3) }
    ensures goes_on_after_its_result { direct_run goes_on_after_its_result [] 7 ≡ yields ("7" ∷ []) 7 Done }
{}

/// Each kind of trap at its line, and what goes on after it.
pub fn traps_have_their_lines()
    ensures overflow { direct_run too_large [] 1 ≡ yields ("1" ∷ []) 1 (traps Overflow 3) }
    ensures index { direct_run index_outside [] 1 ≡ yields [] 1 (traps Index 1) }
    ensures unbound { direct_run no_object [] 1 ≡ yields [] 1 (traps Unbound 4) }
    ensures no_input { direct_run asks_for_input [] 1 ≡ yields [] 1 (traps NoInput 1) }
    ensures input { direct_run asks_for_input (negsuc 6 ∷ []) 1 ≡ yields ("-7" ∷ []) 1 Done }
    ensures twice { yield_of second_result (regular_start 0 (pos 0 ∷ [])) empty 1 ≡ gives (given.Known (known.Value (pos 1 ∷ []))) [] (traps Twice 4) }
    ensures twice_is_not_reported { direct_run second_result [] 3 ≡ yields ("1" ∷ []) 3 Done }
    ensures no_reply { yield_of no_result (regular_start 0 (pos 0 ∷ [])) empty 1 ≡ gives (trapped NoReply 5) [] Done }
    ensures no_reply_forced { direct_run no_result [] 3 ≡ yields [] 3 (traps NoReply 5) }
    ensures no_reply_of_a_function { direct_run function_without_result [] 2 ≡ yields [] 2 (traps NoReply 2) }
{}

/// What comes first, what is forced, and which variable a name is.
pub fn parts_have_their_order()
    ensures parentheses_force { direct_run parentheses_force [] 3 ≡ yields [] 3 (traps DivZero 2) }
    ensures right_side_first { direct_run right_side_first [] 1 ≡ yields [] 1 (traps DivZero 3) }
    ensures variable_before_index { direct_run variable_before_index [] 3 ≡ yields [] 3 (traps Index 3) }
    ensures receiver_first { direct_run receiver_first [] 1 ≡ yields [] 1 (traps Unbound 4) }
    ensures left_decides { direct_run left_decides [] 1 ≡ yields ("false true" ∷ []) 1 Done }
    ensures inner_names { direct_run inner_names [] 3 ≡ yields ("1" ∷ []) 3 Done }
    ensures function_in_function { direct_run function_in_function [] 3 ≡ yields ("8" ∷ []) 3 Done }
    ensures quotient_to_zero { direct_run quotient_to_zero [] 1 ≡ yields ("-3 -1" ∷ []) 1 Done }
{}

/// Structs, arrays, input and loops.
pub fn loops_have_their_turns()
    ensures products_of_input { direct_run products_of_input (pos 1 ∷ pos 2 ∷ pos 3 ∷ pos 4 ∷ pos 5 ∷ pos 6 ∷ pos 7 ∷ pos 8 ∷ []) 25 ≡ yields ("70 174" ∷ []) 25 Done }
    ensures endless { direct_run endless [] 100 ≡ yields [] 101 Spent }
{}

/// Calls on a persistent object, with replies and without.
pub fn replies_are_awaited()
    ensures two_replies { (replies : FinMap nat_cmp Known) → get replies 1 ≡ Some (known.Value (pos 7 ∷ [])) → get replies 2 ≡ Some (known.Value []) →
        yield_of gets_and_puts (main_start []) replies 4 ≡ yields_with (on_first 1 1 [] ∷ on_first 2 0 (Know (pos 7 ∷ []) ∷ []) ∷ []) ("7" ∷ []) 4 Done }
    ensures no_reply { direct_run gets_and_puts [] 4 ≡ yields_with (on_first 1 1 [] ∷ on_first 2 0 (Know (pos 7 ∷ []) ∷ []) ∷ []) [] 4 Waits }
    ensures passed_on { direct_run passes_it_back [] 4 ≡ yields_with (on_first 1 1 [] ∷ on_first 2 0 (Unknown ∷ []) ∷ []) [] 4 Done }
    ensures put { yield_of gets_and_puts (member_start 0 (pos 7 ∷ []) (pos 0 ∷ pos 0 ∷ [])) empty 1 ≡ gives (given.Known (known.Value [])) (pos 7 ∷ pos 1 ∷ []) Done }
    ensures get { yield_of gets_and_puts (member_start 1 [] (pos 7 ∷ pos 1 ∷ [])) empty 1 ≡ gives (given.Known (known.Value (pos 7 ∷ []))) (pos 7 ∷ pos 0 ∷ []) Done }
{}

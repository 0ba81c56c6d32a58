//! Sources, and what their programs do.
ghost use Rattle.std.specs.Prelude.{[], ◌∷◌, negsuc, pos};
ghost use Rattle.mpl_value.specs.declared.body.Arg.TheVariants.{Know};
ghost use Rattle.mpl_value.specs.declared.body.BodyEnd.TheVariants.{Done, Spent};
ghost use Rattle.mpl_value.specs.declared.known.TrapKind.TheVariants.{DivZero, Index, NoInput, NoReply, Overflow, Unbound};
ghost use Rattle.mpl_mean.specs.SmallPrograms.WorkedYields.{on_first, traps, yields, yields_with};
ghost use Rattle.mpl_worked.specs.SourceRuns.{SourceRuns};
ghost use Rattle.mpl_worked.specs.Sources as source;

/// Calls: their results, and the turns that they take.
pub fn sources_with_calls()
    ensures sum_of_squares { SourceRuns source.sum_of_squares [] 5 (yields ("25" ∷ []) 5 Done) }
    ensures a_turn_too_few { SourceRuns source.sum_of_squares [] 4 (yields [] 5 Spent) }
    ensures fib_of_ten { SourceRuns source.fib_of_ten [] 531 (yields ("55" ∷ []) 531 Done) }
    ensures one_result_twice { SourceRuns source.one_result_twice [] 5 (yields ("18" ∷ []) 5 Done) }
    ensures unforced_division { SourceRuns source.unforced_division [] 3 (yields ("1" ∷ []) 3 Done) }
    ensures forced_division { SourceRuns source.forced_division [] 3 (yields ("1" ∷ []) 3 (traps DivZero 2)) }
    ensures leftmost_trap_wins { SourceRuns source.leftmost_trap_wins [] 6 (yields [] 6 (traps Overflow 3)) }
    ensures goes_on_after_its_result { SourceRuns source.goes_on_after_its_result [] 7 (yields ("7" ∷ []) 7 Done) }
    ensures puts { SourceRuns source.puts [] 3 (yields_with (on_first 1 0 (Know (pos 7 ∷ []) ∷ []) ∷ []) ("1" ∷ []) 3 Done) }
{}

/// Each kind of trap at its line, and what goes on after it.
pub fn sources_with_traps()
    ensures overflow { SourceRuns source.too_large [] 1 (yields ("1" ∷ []) 1 (traps Overflow 3)) }
    ensures index { SourceRuns source.index_outside [] 1 (yields [] 1 (traps Index 1)) }
    ensures unbound { SourceRuns source.no_object [] 1 (yields [] 1 (traps Unbound 4)) }
    ensures no_input { SourceRuns source.asks_for_input [] 1 (yields [] 1 (traps NoInput 1)) }
    ensures input { SourceRuns source.asks_for_input (negsuc 6 ∷ []) 1 (yields ("-7" ∷ []) 1 Done) }
    ensures twice_is_not_reported { SourceRuns source.second_result [] 3 (yields ("1" ∷ []) 3 Done) }
    ensures no_reply_forced { SourceRuns source.no_result [] 3 (yields [] 3 (traps NoReply 3)) }
    ensures no_reply_of_a_function { SourceRuns source.function_without_result [] 2 (yields [] 2 (traps NoReply 2)) }
{}

/// What comes first, what is forced, and which variable a name is.
pub fn sources_with_an_order()
    ensures parentheses_force { SourceRuns source.parentheses_force [] 3 (yields [] 3 (traps DivZero 2)) }
    ensures right_side_first { SourceRuns source.right_side_first [] 1 (yields [] 1 (traps DivZero 3)) }
    ensures variable_before_index { SourceRuns source.variable_before_index [] 3 (yields [] 3 (traps Index 3)) }
    ensures receiver_first { SourceRuns source.receiver_first [] 1 (yields [] 1 (traps Unbound 4)) }
    ensures left_decides { SourceRuns source.left_decides [] 1 (yields ("false true" ∷ []) 1 Done) }
    ensures inner_names { SourceRuns source.inner_names [] 3 (yields ("1" ∷ []) 3 Done) }
    ensures function_in_function { SourceRuns source.function_in_function [] 3 (yields ("8" ∷ []) 3 Done) }
    ensures quotient_to_zero { SourceRuns source.quotient_to_zero [] 1 (yields ("-3 -1" ∷ []) 1 Done) }
{}

/// Structs, arrays, input, loops and branches.
pub fn sources_with_loops()
    ensures products_of_input { SourceRuns source.products_of_input (pos 1 ∷ pos 2 ∷ pos 3 ∷ pos 4 ∷ pos 5 ∷ pos 6 ∷ pos 7 ∷ pos 8 ∷ []) 25 (yields ("70 174" ∷ []) 25 Done) }
    ensures endless { SourceRuns source.endless [] 100 (yields [] 101 Spent) }
    ensures nearest_if { SourceRuns source.nearest_if [] 5 (yields ("-1 0 1" ∷ []) 5 Done) }
{}

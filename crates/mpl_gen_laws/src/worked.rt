//! What the images of small programs do, computed, with each use marked.
ghost use Rattle.std.specs.Prelude.{◌≡◌, [], ◌∷◌, negsuc, pos, Some, map};
ghost use Rattle.std.specs.FinMap.{empty};
ghost use Rattle.mpl_value.specs.declared.body.BodyEnd.TheVariants.{Done, Spent};
ghost use Rattle.mpl_value.specs.declared.known.TrapKind.TheVariants.{DivZero, Index, NoInput, NoReply, Overflow, Unbound};
ghost use Rattle.mpl_mean.specs.Meaning.DirectRun.{main_start};
ghost use Rattle.mpl_mean.specs.SmallPrograms.CallPrograms.{fib_of_ten, forced_division, goes_on_after_its_result, leftmost_trap_wins, one_result_twice, sum_of_squares, unforced_division};
ghost use Rattle.mpl_mean.specs.SmallPrograms.LoopPrograms.{endless, products_of_input};
ghost use Rattle.mpl_mean.specs.SmallPrograms.OrderPrograms.{function_in_function, inner_names, left_decides, parentheses_force, quotient_to_zero, receiver_first, right_side_first, variable_before_index};
ghost use Rattle.mpl_mean.specs.SmallPrograms.TrapPrograms.{asks_for_input, function_without_result, index_outside, no_object, no_result, too_large};
ghost use Rattle.mpl_mean.specs.SmallPrograms.WorkedYields.{traps, yields};
ghost use Rattle.mdf_code.specs.Yields.{YieldsUnstrayed};
ghost use Rattle.mpl_gen_code.specs.ProgramImage.{image_of};
ghost use Rattle.mdf_code.specs.declared.raw.RawMember.{RawMember};
ghost use Rattle.mpl_gen_laws.specs.MarkedSum.{code_of_main, code_of_square, marked_sum, results};
ghost use Rattle.mpl_gen_laws.specs.Marks.{everywhere};

/// Calls on regular objects: their results, and the turns that they take.
pub fn images_call()
    ensures sum_of_squares { YieldsUnstrayed (image_of sum_of_squares everywhere) (main_start []) empty 5 (yields ("25" ∷ []) 5 Done) }
    ensures a_turn_too_few { YieldsUnstrayed (image_of sum_of_squares everywhere) (main_start []) empty 4 (yields [] 5 Spent) }
    ensures one_result_twice { YieldsUnstrayed (image_of one_result_twice everywhere) (main_start []) empty 5 (yields ("18" ∷ []) 5 Done) }
    ensures unforced_division { YieldsUnstrayed (image_of unforced_division everywhere) (main_start []) empty 3 (yields ("1" ∷ []) 3 Done) }
    ensures forced_division { YieldsUnstrayed (image_of forced_division everywhere) (main_start []) empty 3 (yields ("1" ∷ []) 3 (traps DivZero 2)) }
    ensures leftmost_trap_wins { YieldsUnstrayed (image_of leftmost_trap_wins everywhere) (main_start []) empty 6 (yields [] 6 (traps Overflow 3)) }
    ensures goes_on_after_its_result { YieldsUnstrayed (image_of goes_on_after_its_result everywhere) (main_start []) empty 7 (yields ("7" ∷ []) 7 Done) }
{}

/// Each kind of trap at its line.
pub fn images_trap()
    ensures overflow { YieldsUnstrayed (image_of too_large everywhere) (main_start []) empty 1 (yields ("1" ∷ []) 1 (traps Overflow 3)) }
    ensures index { YieldsUnstrayed (image_of index_outside everywhere) (main_start []) empty 1 (yields [] 1 (traps Index 1)) }
    ensures unbound { YieldsUnstrayed (image_of no_object everywhere) (main_start []) empty 1 (yields [] 1 (traps Unbound 4)) }
    ensures no_input { YieldsUnstrayed (image_of asks_for_input everywhere) (main_start []) empty 1 (yields [] 1 (traps NoInput 1)) }
    ensures input { YieldsUnstrayed (image_of asks_for_input everywhere) (main_start (negsuc 6 ∷ [])) empty 1 (yields ("-7" ∷ []) 1 Done) }
    ensures no_reply_forced { YieldsUnstrayed (image_of no_result everywhere) (main_start []) empty 3 (yields [] 3 (traps NoReply 5)) }
    ensures no_reply_of_a_function { YieldsUnstrayed (image_of function_without_result everywhere) (main_start []) empty 2 (yields [] 2 (traps NoReply 2)) }
{}

/// What comes first, what is forced, which variable a name is, and loops.
pub fn images_keep_the_order()
    ensures parentheses_force { YieldsUnstrayed (image_of parentheses_force everywhere) (main_start []) empty 3 (yields [] 3 (traps DivZero 2)) }
    ensures right_side_first { YieldsUnstrayed (image_of right_side_first everywhere) (main_start []) empty 1 (yields [] 1 (traps DivZero 3)) }
    ensures receiver_first { YieldsUnstrayed (image_of receiver_first everywhere) (main_start []) empty 1 (yields [] 1 (traps Unbound 4)) }
    ensures left_decides { YieldsUnstrayed (image_of left_decides everywhere) (main_start []) empty 1 (yields ("false true" ∷ []) 1 Done) }
    ensures inner_names { YieldsUnstrayed (image_of inner_names everywhere) (main_start []) empty 3 (yields ("1" ∷ []) 3 Done) }
    ensures function_in_function { YieldsUnstrayed (image_of function_in_function everywhere) (main_start []) empty 3 (yields ("8" ∷ []) 3 Done) }
    ensures quotient_to_zero { YieldsUnstrayed (image_of quotient_to_zero everywhere) (main_start []) empty 1 (yields ("-3 -1" ∷ []) 1 Done) }
    ensures endless { YieldsUnstrayed (image_of endless everywhere) (main_start []) empty 20 (yields [] 21 Spent) }
{}

/// The code of the program that prints the sum of two squares, where the uses of the two results are marked: there is a need
/// where the marks are, and nowhere else.
pub fn needs_stand_where_the_marks_are()
    ensures main { (image_of marked_sum results).main.code ≡ code_of_main }
    ensures members { map (λ (m : RawMember). m.body.code) (image_of marked_sum results).members ≡ code_of_square ∷ [] }
    ensures runs { YieldsUnstrayed (image_of marked_sum results) (main_start []) empty 5 (yields ("25" ∷ []) 5 Done) }
{}

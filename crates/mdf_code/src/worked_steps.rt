//! Each instruction once, in a small image.
ghost use Rattle.std.specs.Prelude.{◌≡◌, [], ◌∷◌, ◌++◌, Some, None, pos, negsuc, true, false, codes};
ghost use Rattle.mpl_value.specs.declared.body.Arg.TheVariants.{Know, Trapped, Unknown};
ghost use Rattle.mpl_value.specs.declared.known.TrapKind.TheVariants.{DivZero, Index, NoInput, NoReply, Overflow, Twice, Unbound};
ghost use Rattle.mdf_code.specs.declared.instr.Instr.TheVariants as instr;
ghost use Rattle.mdf_code.specs.Frames.{InMain, InFunction, InMember, Calls, Creates, Ends, Needs, Replies, Traps};
ghost use Rattle.mdf_code.specs.SmallCode.{around_small, flow, flows_after, frame, number, one, pair, place_after, seen, spends_turn, state_after, stop_of, stops_with, strays, trap, traps_with, variables_after, words_after};
ghost use Rattle.mdf_code.specs.Steps.{does};
ghost use Rattle.mdf_code.specs.Yields.{in_place};

/// Words on the stack, the top first.
pub fn words_are_computed()
    ensures push { words_after (instr.Push (negsuc 4)) (pos 2 ∷ []) ≡ Some (negsuc 4 ∷ pos 2 ∷ []) }
    ensures drop { words_after (instr.Drop 2) (pos 3 ∷ pos 2 ∷ pos 1 ∷ []) ≡ Some (pos 1 ∷ []) }
    ensures add { words_after (instr.Add 8) (pos 3 ∷ pos 7 ∷ []) ≡ Some (pos 10 ∷ []) }
    ensures sub { words_after (instr.Sub 8) (pos 3 ∷ pos 7 ∷ []) ≡ Some (pos 4 ∷ []) }
    ensures mul { words_after (instr.Mul 8) (pos 3 ∷ pos 7 ∷ []) ≡ Some (pos 21 ∷ []) }
    ensures div { words_after (instr.Div 8) (pos 3 ∷ pos 7 ∷ []) ≡ Some (pos 2 ∷ []) }
    ensures rem { words_after (instr.Rem 8) (pos 3 ∷ pos 7 ∷ []) ≡ Some (pos 1 ∷ []) }
    ensures neg { words_after (instr.Neg 8) (pos 3 ∷ pos 7 ∷ []) ≡ Some (negsuc 2 ∷ pos 7 ∷ []) }
    ensures not { words_after instr.Not (pos 3 ∷ pos 7 ∷ []) ≡ Some (pos 0 ∷ pos 7 ∷ []) }
    ensures equal { words_after instr.Equal (pos 3 ∷ pos 7 ∷ []) ≡ Some (pos 0 ∷ []) }
    ensures not_equal { words_after instr.NotEqual (pos 3 ∷ pos 7 ∷ []) ≡ Some (pos 1 ∷ []) }
    ensures less { words_after instr.Less (pos 3 ∷ pos 7 ∷ []) ≡ Some (pos 0 ∷ []) }
    ensures less_equal { words_after instr.LessEqual (pos 7 ∷ pos 7 ∷ []) ≡ Some (pos 1 ∷ []) }
    ensures greater { words_after instr.Greater (pos 3 ∷ pos 7 ∷ []) ≡ Some (pos 1 ∷ []) }
    ensures greater_equal { words_after instr.GreaterEqual (pos 7 ∷ pos 3 ∷ []) ≡ Some (pos 0 ∷ []) }
    ensures input { words_after (instr.Input 8) [] ≡ Some (pos 9 ∷ []) }
    ensures own { seen (λ f. f.words) (one instr.Own (InMember 2) [] [] []) ≡ Some (pos 5 ∷ []) }
    ensures bound { words_after (instr.Bound 8) (pos 3 ∷ []) ≡ Some (pos 3 ∷ []) }
{}

/// Variables and the state, and what is read and written of them: a variable or none, an offset, a count.
pub fn words_are_kept()
    ensures load { words_after (instr.Load 1 0 2) [] ≡ Some (pos 6 ∷ pos 5 ∷ []) }
    ensures load_indexed { words_after (instr.LoadIndexed 1 1 1 8) (pos 0 ∷ []) ≡ Some (pos 6 ∷ []) }
    ensures store { variables_after (instr.Store 1 0 2) (pos 2 ∷ pos 1 ∷ []) ≡ Some (number 4 ∷ pair 1 2 ∷ Unknown ∷ []) }
    ensures store_indexed { variables_after (instr.StoreIndexed 1 0 2 8) (pos 1 ∷ pos 3 ∷ []) ≡ Some (number 4 ∷ pair 5 3 ∷ Unknown ∷ []) }
    ensures zero { variables_after (instr.Zero 2) [] ≡ Some (number 4 ∷ pair 5 6 ∷ pair 0 0 ∷ []) }
    ensures copy { variables_after (instr.Copy 2 1) [] ≡ Some (number 4 ∷ pair 5 6 ∷ pair 5 6 ∷ []) }
    ensures set_variable { variables_after (instr.SetVariable 2) [] ≡ Some (number 4 ∷ pair 5 6 ∷ pair 1 2 ∷ []) }
    ensures needed { words_after (instr.Need 0) [] ≡ Some [] }
    ensures need_traps { stop_of (one (instr.Need 0) InMain [] [] (Trapped (trap DivZero 3) ∷ [])) ≡ traps_with DivZero 3 }
    ensures needs { stops_with (instr.Need 2) [] [] ≡ Some (Needs Unknown) }
    ensures fetch { seen (λ f. f.words) (one (instr.Fetch 0 2) (InMember 2) [] [] []) ≡ Some (pos 8 ∷ pos 7 ∷ []) }
    ensures fetch_indexed { seen (λ f. f.words) (one (instr.FetchIndexed 1 1 8) (InMember 2) (pos 0 ∷ []) [] []) ≡ Some (pos 8 ∷ []) }
    ensures keep { state_after (instr.Keep 1 1) (pos 2 ∷ []) ≡ Some (pos 7 ∷ pos 2 ∷ []) }
    ensures keep_indexed { state_after (instr.KeepIndexed 0 2 8) (pos 1 ∷ pos 3 ∷ []) ≡ Some (pos 7 ∷ pos 3 ∷ []) }
{}

/// Places, turns and plain functions.
pub fn places_are_reached()
    ensures jump { place_after (instr.Jump 1) [] ≡ Some 1 }
    ensures jump_zero { place_after (instr.JumpZero 1) (pos 0 ∷ []) ≡ Some 1 }
    ensures no_jump { place_after (instr.JumpZero 1) (pos 2 ∷ []) ≡ Some 4 }
    ensures test { spends_turn (one instr.Test InMain [] [] []) ≡ true }
    ensures call { spends_turn (one (instr.Call 0) InMain (pos 2 ∷ pos 1 ∷ []) [] []) ≡ true }
    ensures call_starts { seen (λ f. f.variables) (one (instr.Call 0) InMain (pos 2 ∷ pos 1 ∷ pos 0 ∷ []) [] []) ≡ Some (number 1 ∷ number 2 ∷ pair 0 0 ∷ []) }
    ensures call_leaves { seen (λ f. f.words) (one (instr.Call 0) InMain (pos 2 ∷ pos 1 ∷ pos 0 ∷ []) [] []) ≡ Some [] }
    ensures returns { seen (λ f. f.words) (does in_place around_small (instr.Return 1) (record (frame (InFunction 0) (pos 3 ∷ pos 2 ∷ []) [] []) {
      callers = record { code = InMain; place = 2; words = pos 9 ∷ []; flows = []; variables = [] } ∷ [];
    })) ≡ Some (pos 3 ∷ pos 9 ∷ []) }
    ensures fail { stop_of (one (instr.Fail 8) (InFunction 0) [] [] []) ≡ traps_with NoReply 8 }
    ensures end { stops_with (instr.End 8) [] [] ≡ Some (Ends 8) }
    ensures print { seen (λ f. f.lines) (one (instr.Print (codes "ib")) InMain (pos 2 ∷ pos 1 ∷ []) [] []) ≡ Some (codes "1 true" ++ 10 ∷ []) }
{}

/// Flow values, calls and objects.
pub fn flows_are_passed()
    ensures arg_words { flows_after (instr.ArgWords 2) [] ≡ Some (flow (pair 1 2) 2 ∷ []) }
    ensures arg_variable { flows_after (instr.ArgVariable 2) [] ≡ Some (flow Unknown 2 ∷ []) }
    ensures send { stops_with (instr.Send 0 2) [] (flow (number 2) 1 ∷ flow Unknown 1 ∷ []) ≡ Some (Calls 0 (pos 0) (Unknown ∷ number 2 ∷ [])) }
    ensures post { stops_with (instr.Post 1 1) (pos 5 ∷ []) (flow (number 2) 1 ∷ []) ≡ Some (Calls 1 (pos 5) (number 2 ∷ [])) }
    ensures drop_flow { flows_after instr.DropFlow (flow Unknown 1 ∷ flow (number 2) 1 ∷ []) ≡ Some (flow (number 2) 1 ∷ []) }
    ensures force { seen (λ f. f.words) (one instr.Force InMain [] (flow (pair 1 2) 2 ∷ []) []) ≡ Some (pos 2 ∷ pos 1 ∷ []) }
    ensures force_trap { stops_with instr.Force [] (flow (Trapped (trap DivZero 3)) 1 ∷ []) ≡ traps_with DivZero 3 }
    ensures force_unknown { stops_with instr.Force [] (flow Unknown 1 ∷ []) ≡ Some (Needs Unknown) }
    ensures create { stops_with (instr.Create 1) [] [] ≡ Some (Creates 1) }
    ensures reply { stop_of (one (instr.Reply 8) (InMember 2) [] (flow Unknown 1 ∷ []) []) ≡ Some (Replies Unknown) }
{}

/// Each kind of trap, with its line.
pub fn steps_trap()
    ensures overflow { stops_with (instr.Add 8) (pos 1 ∷ pos 9223372036854775807 ∷ []) [] ≡ traps_with Overflow 8 }
    ensures negation { stops_with (instr.Neg 8) (negsuc 9223372036854775807 ∷ []) [] ≡ traps_with Overflow 8 }
    ensures quotient { stops_with (instr.Div 8) (pos 0 ∷ pos 7 ∷ []) [] ≡ traps_with DivZero 8 }
    ensures remainder { stops_with (instr.Rem 8) (pos 0 ∷ pos 7 ∷ []) [] ≡ traps_with DivZero 8 }
    ensures index { stops_with (instr.LoadIndexed 1 0 2 8) (pos 2 ∷ []) [] ≡ traps_with Index 8 }
    ensures negative_index { stops_with (instr.StoreIndexed 1 0 2 8) (negsuc 0 ∷ pos 3 ∷ []) [] ≡ traps_with Index 8 }
    ensures unbound { stops_with (instr.Bound 8) (pos 0 ∷ []) [] ≡ traps_with Unbound 8 }
    ensures no_input { stop_of (does in_place around_small (instr.Input 8) (record (frame InMain [] [] []) { input = [] })) ≡ traps_with NoInput 8 }
    ensures twice { stop_of (does in_place around_small (instr.Reply 8) (record (frame (InMember 2) [] (flow Unknown 1 ∷ []) []) { replied = true })) ≡ traps_with Twice 8 }
{}

/// Each kind of instruction that can't stand where it is.
pub fn steps_stray()
    ensures variable { strays (instr.Zero 3) InMain [] [] ≡ true }
    ensures cell { strays (instr.Load 1 1 2) InMain [] [] ≡ true }
    ensures state_cell { strays (instr.Fetch 1 2) (InMember 2) [] [] ≡ true }
    ensures place { strays (instr.Jump 5) InMain [] [] ≡ true }
    ensures function { strays (instr.Call 1) InMain (pos 2 ∷ pos 1 ∷ []) [] ≡ true }
    ensures member { strays (instr.Send 3 0) InMain [] [] ≡ true }
    ensures class { strays (instr.Create 2) InMain [] [] ≡ true }
    ensures send_persistent { strays (instr.Send 2 0) InMain [] [] ≡ true }
    ensures post_regular { strays (instr.Post 0 2) InMain (pos 5 ∷ []) (flow (number 2) 1 ∷ flow (number 1) 1 ∷ []) ≡ true }
    ensures create_regular { strays (instr.Create 0) InMain [] [] ≡ true }
    ensures count { strays (instr.Send 0 1) InMain [] (flow (number 1) 1 ∷ []) ≡ true }
    ensures count_posted { strays (instr.Post 1 0) InMain (pos 5 ∷ []) [] ≡ true }
    ensures no_word { strays (instr.Add 8) InMain (pos 1 ∷ []) [] ≡ true }
    ensures no_flow { strays instr.Force InMain [] [] ≡ true }
    ensures not_known { strays (instr.Load 2 0 2) InMain [] [] ≡ true }
    ensures size_of_variable { strays (instr.SetVariable 0) InMain [] (flow Unknown 2 ∷ []) ≡ true }
    ensures size_of_formal { strays (instr.Send 0 2) InMain [] (flow Unknown 1 ∷ flow Unknown 2 ∷ []) ≡ true }
    ensures size_of_result { strays (instr.Reply 8) (InMember 2) [] (flow Unknown 2 ∷ []) ≡ true }
    ensures size_of_source { strays (instr.Copy 0 1) InMain [] [] ≡ true }
    ensures size_of_state { strays (instr.Keep 1 2) (InMember 2) (pos 1 ∷ pos 2 ∷ []) [] ≡ true }
    ensures size_returned { strays (instr.Return 2) (InFunction 0) (pos 1 ∷ pos 2 ∷ []) [] ≡ true }
    ensures reply_in_main { strays (instr.Reply 8) InMain [] (flow Unknown 1 ∷ []) ≡ true }
    ensures reply_in_void { strays (instr.Reply 8) (InMember 1) [] (flow Unknown 0 ∷ []) ≡ true }
    ensures input_in_member { strays (instr.Input 8) (InMember 2) [] [] ≡ true }
    ensures state_in_main { strays (instr.Fetch 0 1) InMain [] [] ≡ true }
    ensures self_in_main { strays instr.Own InMain [] [] ≡ true }
    ensures post_in_regular { strays (instr.Post 2 0) (InMember 0) (pos 5 ∷ []) [] ≡ true }
    ensures send_in_function { strays (instr.Send 0 2) (InFunction 0) [] (flow (number 2) 1 ∷ flow (number 1) 1 ∷ []) ≡ true }
    ensures return_in_main { strays (instr.Return 0) InMain [] [] ≡ true }
    ensures fail_in_main { strays (instr.Fail 8) InMain [] [] ≡ true }
{}

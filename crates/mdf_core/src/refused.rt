//! Events that don't apply: for each kind of event, a list of events after which it doesn't, for each reason. Events stand
//! in their order, the oldest first.
ghost use Rattle.std.specs.Prelude.{[], ◌∷◌, pos};
ghost use Rattle.mpl_value.specs.declared.known.TrapKind.TheVariants.{DivZero};
ghost use Rattle.mdf_code.specs.Alone.{Pending};
ghost use Rattle.mdf_code.specs.SmallBodies.{does_nothing, puts_and_gets};
ghost use Rattle.mdf_code.specs.SmallCode.{trap};
ghost use Rattle.mdf_core.specs.declared.status.MachineStatus.TheVariants as machine;
ghost use Rattle.mdf_core.specs.Events.{Accept, Arrive, Beat, Create, End, Fails, Finishes, Fire, Learn, Match, Park, Quit, Reply, Resume, Send};
ghost use Rattle.mdf_core.specs.SmallRuns.{NotAfter, buffer, poisons, two_squares, with_budget, word};

/// A frame begins once, where its actor has all arguments and none is a trap, as long as the machine goes on.
pub fn frames_begin_where_actors_are_ready()
    ensures once { NotAfter (with_budget two_squares 100) (Fire 0 ∷ []) (Fire 0) }
    ensures waits_for_arguments { NotAfter (with_budget poisons 100) (Fire 0 ∷ Send 0 0 1 0 (pos 0) (word 0 ∷ []) ∷ Send 0 0 2 0 (pos 0) (Pending 1 ∷ []) ∷ []) (Fire 2) }
    ensures poisoned { NotAfter (with_budget poisons 100) (Fire 0 ∷ Send 0 0 1 0 (pos 0) (word 0 ∷ []) ∷ Send 0 0 2 0 (pos 0) (Pending 1 ∷ []) ∷ End 0 0 (Finishes 5) [] ∷ Fire 1 ∷ End 1 0 (Fails (trap DivZero 2)) [] ∷ Match 0 ∷ []) (Fire 2) }
    ensures not_accepted { NotAfter (with_budget buffer 100) (Fire 0 ∷ Create 0 0 0 (pos 1) ∷ Send 0 0 1 1 (pos 1) [] ∷ []) (Fire 1) }
    ensures no_such_actor { NotAfter (with_budget two_squares 100) [] (Fire 1) }
    ensures ended { NotAfter (with_budget two_squares 4) (Fire 0 ∷ Send 0 0 1 0 (pos 0) (word 3 ∷ []) ∷ Send 0 0 2 0 (pos 0) (word 4 ∷ []) ∷ Park 0 0 1 ∷ Fire 1 ∷ Reply 1 0 (word 9) ∷ Resume 0 ∷ Learn 0 0 1 ∷ Park 0 0 2 ∷ End 1 0 (Finishes 2) [] ∷ Fire 2 ∷ Quit machine.Spent ∷ []) (Fire 2) }
{}

/// A call is the one that the frame stops with; its actor is the next, and it is made within the budget.
pub fn calls_are_what_frames_stop_with()
    ensures other_argument { NotAfter (with_budget two_squares 100) (Fire 0 ∷ []) (Send 0 0 1 0 (pos 0) (word 4 ∷ [])) }
    ensures other_member { NotAfter (with_budget two_squares 100) (Fire 0 ∷ []) (Send 0 0 1 1 (pos 0) (word 3 ∷ [])) }
    ensures other_actor { NotAfter (with_budget two_squares 100) (Fire 0 ∷ []) (Send 0 0 2 0 (pos 0) (word 3 ∷ [])) }
    ensures other_turns { NotAfter (with_budget two_squares 100) (Fire 0 ∷ []) (Send 0 1 1 0 (pos 0) (word 3 ∷ [])) }
    ensures not_out { NotAfter (with_budget two_squares 100) [] (Send 0 0 1 0 (pos 0) (word 3 ∷ [])) }
    ensures over_the_budget { NotAfter (with_budget two_squares 0) (Fire 0 ∷ []) (Send 0 0 1 0 (pos 0) (word 3 ∷ [])) }
{}

/// An object is created where the frame stops for it, with the next word of its body, within the budget.
pub fn objects_are_created_in_their_order()
    ensures at_a_call { NotAfter (with_budget two_squares 100) (Fire 0 ∷ []) (Create 0 0 0 (pos 1)) }
    ensures other_word { NotAfter (with_budget buffer 100) (Fire 0 ∷ []) (Create 0 0 0 (pos 2)) }
    ensures other_class { NotAfter (with_budget buffer 100) (Fire 0 ∷ []) (Create 0 0 1 (pos 1)) }
    ensures over_the_budget { NotAfter (with_budget buffer 0) (Fire 0 ∷ []) (Create 0 0 0 (pos 1)) }
{}

/// A frame learns a result that it needs, once it is known, and is parked as long as it is not.
pub fn results_are_learnt_when_they_are_known()
    ensures learns_the_unknown { NotAfter (with_budget two_squares 100) (Fire 0 ∷ Send 0 0 1 0 (pos 0) (word 3 ∷ []) ∷ Send 0 0 2 0 (pos 0) (word 4 ∷ []) ∷ []) (Learn 0 0 1) }
    ensures learns_another { NotAfter (with_budget two_squares 100) (Fire 0 ∷ Send 0 0 1 0 (pos 0) (word 3 ∷ []) ∷ Send 0 0 2 0 (pos 0) (word 4 ∷ []) ∷ []) (Learn 0 0 2) }
    ensures learns_while_parked { NotAfter (with_budget two_squares 100) (Fire 0 ∷ Send 0 0 1 0 (pos 0) (word 3 ∷ []) ∷ Send 0 0 2 0 (pos 0) (word 4 ∷ []) ∷ Park 0 0 1 ∷ []) (Learn 0 0 1) }
    ensures parks_at_a_call { NotAfter (with_budget two_squares 100) (Fire 0 ∷ []) (Park 0 0 1) }
    ensures parks_for_the_known { NotAfter (with_budget two_squares 100) (Fire 0 ∷ Send 0 0 1 0 (pos 0) (word 3 ∷ []) ∷ Send 0 0 2 0 (pos 0) (word 4 ∷ []) ∷ Fire 1 ∷ Reply 1 0 (word 9) ∷ []) (Park 0 0 1) }
{}

/// A frame that was parked goes on once its result is known.
pub fn parked_frames_resume_for_known_results()
    ensures unknown { NotAfter (with_budget two_squares 100) (Fire 0 ∷ Send 0 0 1 0 (pos 0) (word 3 ∷ []) ∷ Send 0 0 2 0 (pos 0) (word 4 ∷ []) ∷ Park 0 0 1 ∷ []) (Resume 0) }
    ensures not_parked { NotAfter (with_budget two_squares 100) (Fire 0 ∷ []) (Resume 0) }
{}

/// A frame gives what it stops with, and ends where it stops for that, with its state.
pub fn frames_give_and_end_as_they_stop()
    ensures other_result { NotAfter (with_budget two_squares 100) (Fire 0 ∷ Send 0 0 1 0 (pos 0) (word 3 ∷ []) ∷ Send 0 0 2 0 (pos 0) (word 4 ∷ []) ∷ Park 0 0 1 ∷ Fire 1 ∷ []) (Reply 1 0 (word 10)) }
    ensures result_again { NotAfter (with_budget two_squares 100) (Fire 0 ∷ Send 0 0 1 0 (pos 0) (word 3 ∷ []) ∷ Send 0 0 2 0 (pos 0) (word 4 ∷ []) ∷ Park 0 0 1 ∷ Fire 1 ∷ Reply 1 0 (word 9) ∷ []) (Reply 1 0 (word 9)) }
    ensures ends_at_a_call { NotAfter (with_budget two_squares 100) (Fire 0 ∷ []) (End 0 0 (Finishes 9) []) }
    ensures ends_by_a_trap { NotAfter (with_budget two_squares 100) (Fire 0 ∷ Send 0 0 1 0 (pos 0) (word 3 ∷ []) ∷ Send 0 0 2 0 (pos 0) (word 4 ∷ []) ∷ Park 0 0 1 ∷ Fire 1 ∷ Reply 1 0 (word 9) ∷ []) (End 1 0 (Fails (trap DivZero 2)) []) }
    ensures other_state { NotAfter (with_budget two_squares 100) (Fire 0 ∷ Send 0 0 1 0 (pos 0) (word 3 ∷ []) ∷ Send 0 0 2 0 (pos 0) (word 4 ∷ []) ∷ Park 0 0 1 ∷ Fire 1 ∷ Reply 1 0 (word 9) ∷ []) (End 1 0 (Finishes 2) (pos 1 ∷ [])) }
    ensures beats_at_a_call { NotAfter (with_budget two_squares 100) (Fire 0 ∷ []) (Beat 0) }
{}

/// A token is matched once, while it is due.
pub fn tokens_are_matched_while_they_are_due()
    ensures none { NotAfter (with_budget two_squares 100) [] (Match 0) }
    ensures twice { NotAfter (with_budget poisons 100) (Fire 0 ∷ Send 0 0 1 0 (pos 0) (word 0 ∷ []) ∷ Send 0 0 2 0 (pos 0) (Pending 1 ∷ []) ∷ End 0 0 (Finishes 5) [] ∷ Fire 1 ∷ End 1 0 (Fails (trap DivZero 2)) [] ∷ Match 0 ∷ []) (Match 0) }
{}

/// A call on an object arrives once, with all arguments known.
pub fn calls_arrive_once()
    ensures regular { NotAfter (with_budget two_squares 100) (Fire 0 ∷ Send 0 0 1 0 (pos 0) (word 3 ∷ []) ∷ []) (Arrive 1) }
    ensures unknown_argument { NotAfter (with_budget puts_and_gets 100) (Fire 0 ∷ Create 0 0 1 (pos 1) ∷ Send 0 0 1 0 (pos 1) (word 7 ∷ []) ∷ Send 0 0 2 1 (pos 1) [] ∷ Send 0 0 3 0 (pos 1) (Pending 2 ∷ []) ∷ []) (Arrive 3) }
    ensures twice { NotAfter (with_budget buffer 100) (Fire 0 ∷ Create 0 0 0 (pos 1) ∷ Send 0 0 1 1 (pos 1) [] ∷ Arrive 1 ∷ []) (Arrive 1) }
    ensures accepted { NotAfter (with_budget buffer 100) (Fire 0 ∷ Create 0 0 0 (pos 1) ∷ Send 0 0 1 1 (pos 1) [] ∷ Arrive 1 ∷ Send 0 0 2 0 (pos 1) (word 7 ∷ []) ∷ Arrive 2 ∷ Accept (pos 1) 2 1 ∷ []) (Arrive 2) }
{}

/// An object that no body runs on accepts its pick, and bodies are numbered as they are accepted.
pub fn objects_accept_their_picks()
    ensures no_object { NotAfter (with_budget buffer 100) (Fire 0 ∷ []) (Accept (pos 1) 1 1) }
    ensures no_open_call { NotAfter (with_budget buffer 100) (Fire 0 ∷ Create 0 0 0 (pos 1) ∷ Send 0 0 1 1 (pos 1) [] ∷ Arrive 1 ∷ []) (Accept (pos 1) 1 1) }
    ensures not_the_pick { NotAfter (with_budget buffer 100) (Fire 0 ∷ Create 0 0 0 (pos 1) ∷ Send 0 0 1 1 (pos 1) [] ∷ Arrive 1 ∷ Send 0 0 2 0 (pos 1) (word 7 ∷ []) ∷ Arrive 2 ∷ []) (Accept (pos 1) 1 1) }
    ensures other_number { NotAfter (with_budget buffer 100) (Fire 0 ∷ Create 0 0 0 (pos 1) ∷ Send 0 0 1 1 (pos 1) [] ∷ Arrive 1 ∷ Send 0 0 2 0 (pos 1) (word 7 ∷ []) ∷ Arrive 2 ∷ []) (Accept (pos 1) 2 2) }
    ensures busy { NotAfter (with_budget buffer 100) (Fire 0 ∷ Create 0 0 0 (pos 1) ∷ Send 0 0 1 1 (pos 1) [] ∷ Arrive 1 ∷ Send 0 0 2 0 (pos 1) (word 7 ∷ []) ∷ Arrive 2 ∷ Accept (pos 1) 2 1 ∷ []) (Accept (pos 1) 1 2) }
{}

/// A machine ends where nothing is left to do, or above its budget, and once.
pub fn machines_end_at_rest_or_spent()
    ensures something_is_left { NotAfter (with_budget two_squares 100) [] (Quit machine.Rest) }
    ensures a_frame_is_out { NotAfter (with_budget two_squares 100) (Fire 0 ∷ Send 0 0 1 0 (pos 0) (word 3 ∷ []) ∷ Send 0 0 2 0 (pos 0) (word 4 ∷ []) ∷ []) (Quit machine.Rest) }
    ensures within_the_budget { NotAfter (with_budget two_squares 100) (Fire 0 ∷ []) (Quit machine.Spent) }
    ensures rest_above_the_budget { NotAfter (with_budget does_nothing 0) (Fire 0 ∷ End 0 0 (Finishes 1) [] ∷ []) (Quit machine.Rest) }
    ensures no_reason { NotAfter (with_budget two_squares 100) [] (Quit machine.Going) }
    ensures twice { NotAfter (with_budget two_squares 4) (Fire 0 ∷ Send 0 0 1 0 (pos 0) (word 3 ∷ []) ∷ Send 0 0 2 0 (pos 0) (word 4 ∷ []) ∷ Park 0 0 1 ∷ Fire 1 ∷ Reply 1 0 (word 9) ∷ Resume 0 ∷ Learn 0 0 1 ∷ Park 0 0 2 ∷ End 1 0 (Finishes 2) [] ∷ Fire 2 ∷ Quit machine.Spent ∷ []) (Quit machine.Spent) }
{}

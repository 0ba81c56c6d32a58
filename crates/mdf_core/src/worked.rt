//! Runs of small programs, by the first items of the drive list. Events stand in their order, the oldest first.
ghost use Rattle.std.specs.Prelude.{◌≡◌, [], ◌∷◌, pos};
ghost use Rattle.mpl_value.specs.declared.body.BodyEnd.TheVariants.{Done, Waits};
ghost use Rattle.mpl_value.specs.declared.known.Known.TheVariants as known;
ghost use Rattle.mpl_value.specs.declared.known.TrapKind.TheVariants.{DivZero};
ghost use Rattle.mdf_actor.specs.declared.status.ActorStatus.TheVariants as status;
ghost use Rattle.mdf_code.specs.Alone.{Pending};
ghost use Rattle.mdf_code.specs.SmallBodies.{endless, passes_on, text};
ghost use Rattle.mdf_code.specs.SmallCode.{trap};
ghost use Rattle.mdf_mean.specs.declared.entry.Entry.TheVariants as entry;
ghost use Rattle.mdf_core.specs.declared.status.MachineStatus.TheVariants as machine;
ghost use Rattle.mdf_core.specs.Actors.{Is};
ghost use Rattle.mdf_core.specs.Enabled.{IsLog};
ghost use Rattle.mdf_core.specs.Events.{Accept, Arrive, Beat, Create, End, Fails, Finishes, Fire, Learn, Match, Park, Quit, Reply, Resume, Send};
ghost use Rattle.mdf_core.specs.Rest.{MainDid};
ghost use Rattle.mdf_core.specs.SmallRuns.{IsRun, Rests, buffer, lonely_get, poisons, reply, reply_nothing, two_squares, with_budget, word};
ghost use Rattle.mdf_core.specs.Steps.{after};

/// Two calls run beside `main`, which waits for the one and then for the other.
pub fn two_squares_are_added()
    ensures { Rests (with_budget two_squares 100)
        (Fire 0 ∷ Send 0 0 1 0 (pos 0) (word 3 ∷ []) ∷ Send 0 0 2 0 (pos 0) (word 4 ∷ []) ∷ Park 0 0 1
        ∷ Fire 1 ∷ Reply 1 0 (word 9) ∷ Resume 0 ∷ Learn 0 0 1 ∷ Park 0 0 2 ∷ End 1 0 (Finishes 2) []
        ∷ Fire 2 ∷ Reply 2 0 (word 16) ∷ Resume 0 ∷ Learn 0 0 2 ∷ End 0 0 (Finishes 9) [] ∷ End 2 0 (Finishes 2) [] ∷ Quit machine.Rest ∷ [])
        5 [] Done ("25" ∷ []) }
{}

/// In another order, in which the second is begun first, and `main` goes on when both have given, it comes to the same.
pub fn two_squares_are_added_in_another_order()
    ensures { let log = Quit machine.Rest ∷ End 1 0 (Finishes 2) [] ∷ End 2 0 (Finishes 2) [] ∷ End 0 0 (Finishes 9) [] ∷ Learn 0 0 2 ∷ Learn 0 0 1
        ∷ Reply 1 0 (word 9) ∷ Fire 1 ∷ Reply 2 0 (word 16) ∷ Fire 2 ∷ Send 0 0 2 0 (pos 0) (word 4 ∷ []) ∷ Send 0 0 1 0 (pos 0) (word 3 ∷ []) ∷ Fire 0 ∷ []
        in IsLog (with_budget two_squares 100) log × ((after (with_budget two_squares 100) log).turns ≡ 5) × MainDid (with_budget two_squares 100) (after (with_budget two_squares 100) log) Done (text ("25" ∷ [])) }
{}

/// With one turn less the machine is spent where the second body begins.
pub fn a_turn_too_few_is_spent()
    ensures { IsRun (with_budget two_squares 4)
        (Fire 0 ∷ Send 0 0 1 0 (pos 0) (word 3 ∷ []) ∷ Send 0 0 2 0 (pos 0) (word 4 ∷ []) ∷ Park 0 0 1
        ∷ Fire 1 ∷ Reply 1 0 (word 9) ∷ Resume 0 ∷ Learn 0 0 1 ∷ Park 0 0 2 ∷ End 1 0 (Finishes 2) []
        ∷ Fire 2 ∷ Quit machine.Spent ∷ [])
        machine.Spent 5 [] }
{}

/// A get waits in its mailbox until something was put.
pub fn a_get_waits_for_a_put()
    ensures { Rests (with_budget buffer 100)
        (Fire 0 ∷ Create 0 0 0 (pos 1) ∷ Send 0 0 1 1 (pos 1) [] ∷ Arrive 1 ∷ Send 0 0 2 0 (pos 1) (word 7 ∷ []) ∷ Arrive 2
        ∷ Accept (pos 1) 2 1 ∷ Park 0 0 1 ∷ Fire 2 ∷ End 2 0 (Finishes 3) (pos 7 ∷ pos 1 ∷ [])
        ∷ Accept (pos 1) 1 2 ∷ Fire 1 ∷ Reply 1 0 (word 7) ∷ Resume 0 ∷ Learn 0 0 1 ∷ End 0 0 (Finishes 16) []
        ∷ End 1 0 (Finishes 4) (pos 7 ∷ pos 0 ∷ []) ∷ Quit machine.Rest ∷ [])
        6 (entry.Arrive 0 1 ∷ entry.Arrive 0 2 ∷ entry.Accept 1 0 2 ∷ reply_nothing 0 2 ∷ entry.Accept 2 0 1 ∷ reply 0 1 7 ∷ [])
        Done ("7" ∷ []) }
{}

/// Without a put it waits for good, and so does `main`.
pub fn a_lonely_get_is_stuck()
    ensures { Rests (with_budget lonely_get 100)
        (Fire 0 ∷ Create 0 0 0 (pos 1) ∷ Send 0 0 1 1 (pos 1) [] ∷ Arrive 1 ∷ Park 0 0 1 ∷ Quit machine.Rest ∷ [])
        3 (entry.Arrive 0 1 ∷ []) Waits [] }
{}

/// An actor with a trapped argument never fires, and has that trap as its result.
pub fn a_trapped_argument_poisons()
    ensures run { Rests (with_budget poisons 100)
        (Fire 0 ∷ Send 0 0 1 0 (pos 0) (word 0 ∷ []) ∷ Send 0 0 2 0 (pos 0) (Pending 1 ∷ []) ∷ End 0 0 (Finishes 5) []
        ∷ Fire 1 ∷ End 1 0 (Fails (trap DivZero 2)) [] ∷ Match 0 ∷ Quit machine.Rest ∷ [])
        4 [] Done [] }
    ensures poisoned { let w = after (with_budget poisons 100)
        (Match 0 ∷ End 1 0 (Fails (trap DivZero 2)) [] ∷ Fire 1 ∷ End 0 0 (Finishes 5) []
        ∷ Send 0 0 2 0 (pos 0) (Pending 1 ∷ []) ∷ Send 0 0 1 0 (pos 0) (word 0 ∷ []) ∷ Fire 0 ∷ [])
        in ((w.actors 2).status ≡ status.Poisoned) × ((w.actors 2).fate ≡ Is (known.Trapped (trap DivZero 2))) }
{}

/// A result that is another call's is known when that call's is, also where its body has ended.
pub fn a_result_is_forwarded()
    ensures { Rests (with_budget (passes_on 2) 100)
        (Fire 0 ∷ Send 0 0 1 1 (pos 0) (word 2 ∷ []) ∷ Park 0 0 1 ∷ Fire 1 ∷ Send 1 0 2 0 (pos 0) (word 2 ∷ []) ∷ Reply 1 0 (Pending 1)
        ∷ End 1 0 (Finishes 3) [] ∷ Fire 2 ∷ Reply 2 0 (word 4) ∷ Match 0 ∷ Resume 0 ∷ Learn 0 0 1 ∷ End 0 0 (Finishes 0) []
        ∷ End 2 0 (Finishes 2) [] ∷ Quit machine.Rest ∷ [])
        5 [] Done ("4" ∷ []) }
{}

/// A loop that never ends takes its turns in beats, until the machine is spent.
pub fn a_loop_beats()
    ensures { IsRun (with_budget endless 300) (Fire 0 ∷ Beat 0 ∷ Beat 0 ∷ Quit machine.Spent ∷ []) machine.Spent 513 [] }
{}

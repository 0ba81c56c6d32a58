//! Sources, and their journals, the oldest entry first.
ghost use Rattle.std.specs.Prelude.{[], ◌∷◌};
ghost use Rattle.mpl_mean.specs.SmallPrograms.WorkedYields.{text};
ghost use Rattle.mdf_mean.specs.Explained.{Done, Stuck};
ghost use Rattle.mdf_worked.specs.JournalSources as source;
ghost use Rattle.mdf_worked.specs.WorkedJournals.{IsOver, IsPart, IsRun, IsUnjustified, accept, arrive, reply, reply_nothing};

/// A get waits until something was put, and a put until there is room.
pub fn gets_wait_for_puts()
    ensures whole { IsRun source.buffer 100 (arrive 0 1 ∷ arrive 0 2 ∷ accept 1 0 2 ∷ reply_nothing 0 2 ∷ accept 2 0 1 ∷ reply 0 1 7 ∷ []) (Done (text ("7" ∷ []))) 6 }
    ensures without_the_last { IsPart source.buffer 100 (arrive 0 1 ∷ arrive 0 2 ∷ accept 1 0 2 ∷ reply_nothing 0 2 ∷ accept 2 0 1 ∷ []) }
    ensures get_too_early { IsUnjustified source.buffer 100 (arrive 0 1 ∷ arrive 0 2 ∷ []) (accept 1 0 1) }
    ensures reply_before_accept { IsUnjustified source.buffer 100 (arrive 0 1 ∷ arrive 0 2 ∷ []) (reply_nothing 0 2) }
    ensures reply_before_body { IsUnjustified source.buffer 100 (arrive 0 1 ∷ arrive 0 2 ∷ accept 1 0 2 ∷ reply_nothing 0 2 ∷ []) (reply 0 1 7) }
    ensures other_value { IsUnjustified source.buffer 100 (arrive 0 1 ∷ arrive 0 2 ∷ accept 1 0 2 ∷ reply_nothing 0 2 ∷ accept 2 0 1 ∷ []) (reply 0 1 8) }
    ensures lonely_get { IsRun source.lonely_get 100 (arrive 0 1 ∷ []) (Stuck []) 3 }
    ensures a_turn_too_few { IsOver source.buffer 5 (arrive 0 1 ∷ arrive 0 2 ∷ accept 1 0 2 ∷ reply_nothing 0 2 ∷ accept 2 0 1 ∷ reply 0 1 7 ∷ []) }
    ensures second_put_waits { IsRun source.two_puts 100 (arrive 0 1 ∷ accept 1 0 1 ∷ arrive 0 2 ∷ reply_nothing 0 1 ∷ []) (Done []) 5 }
{}

/// Of the open calls that of the greatest priority is accepted, whichever arrived first.
pub fn priorities_decide()
    ensures whole { IsRun source.desk 100 (arrive 0 1 ∷ arrive 0 2 ∷ arrive 0 3 ∷ accept 1 0 3 ∷ reply_nothing 0 3 ∷ accept 2 0 2 ∷ reply 0 2 9 ∷ accept 3 0 1 ∷ reply 0 1 91 ∷ []) (Done (text ("91 9" ∷ []))) 8 }
    ensures low_before_high { IsUnjustified source.desk 100 (arrive 0 1 ∷ arrive 0 2 ∷ arrive 0 3 ∷ accept 1 0 3 ∷ reply_nothing 0 3 ∷ []) (accept 2 0 1) }
{}

/// A guard that traps does not hold.
pub fn guards_that_trap_do_not_hold()
    ensures whole { IsRun source.cell 100 (arrive 0 1 ∷ arrive 0 2 ∷ accept 1 0 2 ∷ reply_nothing 0 2 ∷ accept 2 0 1 ∷ reply 0 1 4 ∷ []) (Done (text ("4" ∷ []))) 6 }
    ensures while_it_traps { IsUnjustified source.cell 100 (arrive 0 1 ∷ arrive 0 2 ∷ []) (accept 1 0 1) }
{}

/// An object accepts nothing while a body on it waits, also for itself.
pub fn what_waits_for_itself_is_stuck()
    ensures whole { IsRun source.looper 100 (arrive 0 1 ∷ accept 1 0 1 ∷ arrive 1 1 ∷ []) (Stuck []) 5 }
    ensures accepts_no_second { IsUnjustified source.looper 100 (arrive 0 1 ∷ accept 1 0 1 ∷ arrive 1 1 ∷ []) (accept 2 1 1) }
{}

/// A class without `select` accepts each of its members, the first that arrived first.
pub fn classes_without_select_accept_all()
    ensures whole { IsRun source.tally 100 (arrive 0 1 ∷ accept 1 0 1 ∷ arrive 0 2 ∷ reply_nothing 0 1 ∷ accept 2 0 2 ∷ reply 0 2 5 ∷ []) (Done (text ("5" ∷ []))) 6 }
    ensures second_before_first { IsUnjustified source.tally 100 (arrive 0 1 ∷ arrive 0 2 ∷ []) (accept 1 0 2) }
{}

/// A call with a trapped argument never arrives.
pub fn trapped_arguments_never_arrive()
    ensures whole { IsRun source.trapped_argument 100 [] (Done (text ("1" ∷ []))) 5 }
    ensures arrival { IsUnjustified source.trapped_argument 100 [] (arrive 0 1) }
{}

/// Two objects of two classes.
pub fn objects_have_their_classes()
    ensures whole { IsRun source.two_objects 100 (arrive 0 1 ∷ arrive 0 2 ∷ accept 1 0 1 ∷ accept 2 0 2 ∷ reply_nothing 0 1 ∷ arrive 0 3 ∷ arrive 0 4 ∷ accept 3 0 3 ∷ reply 0 3 3 ∷ reply_nothing 0 2 ∷ accept 4 0 4 ∷ reply 0 4 4 ∷ []) (Done (text ("3 4" ∷ []))) 11 }
{}

/// A body that never ends needs more turns than any allowance, already in the empty journal.
pub fn endless_bodies_are_over()
    ensures whole { IsOver source.endless 100 [] }
{}

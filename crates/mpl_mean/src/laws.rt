ghost use Rattle.std.specs.Prelude.{◌≡◌, ◌≢◌, ◌<◌, ◌≤◌, ◌↔◌, ℕ, ◌+◌, ◌-◌, List, [], ℤ, length, true, Ok, Some, None};
ghost use Rattle.std.specs.FinMap.{FinMap, empty};
ghost use Rattle.std.specs.Ordering.{nat_cmp};
ghost use Rattle.mpl_ast.specs.declared.program.Program.{Program};
ghost use Rattle.mpl_ast.specs.declared.token.Token.{Token};
ghost use Rattle.mpl_mean.specs.Laws.Allowance.{AtSharedPlaces};
ghost use Rattle.mpl_mean.specs.Meaning.BodyMeaning.{callees_at, yield_of};
ghost use Rattle.mpl_mean.specs.Meaning.DirectRun.{direct_run};
ghost use Rattle.mpl_mean.specs.FirstForms.FirstForm.{is_first_form};
ghost use Rattle.mpl_mean.specs.Laws.InPlace.{ArgumentsHaveWords, IsRegular, goes_on_with, start_alone};
ghost use Rattle.mpl_mean.specs.Meaning.Layout.{Member};
ghost use Rattle.mpl_mean.specs.Text.Lexemes.{tokens_of};
ghost use Rattle.mpl_value.specs.Growing.{AreAmong, CallStays, Grows};
ghost use Rattle.mpl_mean.specs.Text.ProgramText.{spells};
ghost use Rattle.mpl_mean.specs.TypeRules.Rules.{Failure, fails, failures, first_failures, is_typed, least_failure, IsNotBehind};
ghost use Rattle.mpl_mean.specs.Laws.Numbers.{NumberedFrom};
ghost use Rattle.mpl_mean.specs.Laws.Sizes.{Every, RepliesFit, Sized, StartFits};
ghost use Rattle.mpl_mean.specs.Meaning.Store.{Store};
ghost use Rattle.mpl_mean.specs.Laws.Waiting.{CanCall, HasPersistent, HasReply};
ghost use Rattle.mpl_value.specs.declared.body.BodyEnd.TheVariants as end;
ghost use Rattle.mpl_value.specs.declared.body.BodyStart.{BodyStart};
ghost use Rattle.mpl_value.specs.declared.known.Known.{Known};

/// A source has no more tokens than bytes.
pub fn tokens_are_few()
    ensures { (source : List ℕ) (tokens : List Token) → tokens_of source ≡ Ok tokens → length tokens ≤ length source }
{}

/// A refusal names a rule that fails at its byte, and of all that fail none comes before it: not at a
/// byte before, and no rule of a smaller number at the same byte. There is none exactly where no rule fails.
pub fn refusals_are_least()
    ensures fails { (p : Program) (f : Failure) → least_failure p ≡ Some f → fails p f.rule f.at ≡ true }
    ensures least { (p : Program) (f : Failure) (number at : ℕ) →
        least_failure p ≡ Some f → fails p number at ≡ true → IsNotBehind f (record { at = at; rule = number }) }
    ensures typed { (p : Program) → is_typed p ≡ true ↔ least_failure p ≡ None }
{}

/// In a program of the first form no rule can fail but the seven that are tried there.
pub fn seven_rules_are_enough()
    ensures { (p : Program) → is_first_form p ≡ true → failures p ≡ first_failures p }
{}

/// A body that has enough turns does the same with more.
pub fn more_turns_change_nothing()
    ensures { (p : Program) (start : BodyStart) (replies : FinMap nat_cmp Known) (n m : ℕ) → (yield_of p start replies n).end ≢ end.Spent → n ≤ m → yield_of p start replies m ≡ yield_of p start replies n }
{}

/// With more replies to its calls a body goes on from where it stood.
pub fn more_replies_only_add()
    ensures { (p : Program) (start : BodyStart) (replies more : FinMap nat_cmp Known) (n : ℕ) → AreAmong replies more → (yield_of p start replies n).end ≢ end.Spent → (yield_of p start more n).end ≢ end.Spent → Grows (yield_of p start replies n) (yield_of p start more n) }
{}

/// A body that isn't spent has taken no more turns than its allowance, and one that is has taken one more. With more
/// replies, and no smaller allowance, it would take more turns than it had: so what is spent stays spent with more
/// replies. Of the calls that both runs make, and of the objects that both create, each stays, also where one of them is
/// spent.
pub fn allowances_are_exact()
    ensures within { (p : Program) (start : BodyStart) (replies : FinMap nat_cmp Known) (n : ℕ) → (yield_of p start replies n).end ≢ end.Spent → (yield_of p start replies n).turns ≤ n }
    ensures spent { (p : Program) (start : BodyStart) (replies : FinMap nat_cmp Known) (n : ℕ) → (yield_of p start replies n).end ≡ end.Spent → (yield_of p start replies n).turns ≡ n + 1 }
    ensures beyond { (p : Program) (start : BodyStart) (replies more : FinMap nat_cmp Known) (n m : ℕ) → AreAmong replies more → n ≤ m → (yield_of p start replies n).end ≡ end.Spent → n < (yield_of p start more m).turns }
    ensures stays_spent { (p : Program) (start : BodyStart) (replies more : FinMap nat_cmp Known) (n : ℕ) → AreAmong replies more → (yield_of p start replies n).end ≡ end.Spent → (yield_of p start more n).end ≡ end.Spent }
    ensures calls { (p : Program) (start : BodyStart) (replies more : FinMap nat_cmp Known) (n m : ℕ) → AreAmong replies more → n ≤ m → AtSharedPlaces CallStays (yield_of p start replies n).calls (yield_of p start more m).calls }
    ensures creations { (p : Program) (start : BodyStart) (replies more : FinMap nat_cmp Known) (n m : ℕ) → AreAmong replies more → n ≤ m → AtSharedPlaces (λ class other. class ≡ other) (yield_of p start replies n).creations (yield_of p start more m).creations }
{}

/// The calls of a body are numbered from 1, in the order in which they are made.
pub fn calls_are_numbered()
    ensures { (p : Program) (start : BodyStart) (replies : FinMap nat_cmp Known) (n : ℕ) → NumberedFrom 1 (yield_of p start replies n).calls }
{}

/// A regular member that is called in place is its body alone, with the turns that are left: what the caller gets of it,
/// how it ends and the turns that it takes are those of its yield, and the caller is spent where the yield is.
pub fn calls_in_place_are_bodies_alone()
    ensures { (p : Program) (replies : FinMap nat_cmp Known) (n level : ℕ) (m : Member) (arguments : List (List ℤ)) (store : Store) →
        IsRegular p.declarations m → ArgumentsHaveWords p.declarations m.formals arguments → store.turns ≤ n → n ≤ store.turns + level →
        (callees_at level p.declarations n replies).regular m arguments store ≡ goes_on_with (yield_of p (start_alone m arguments) empty (n - store.turns)) store }
{}

/// In a well typed program what a body makes has the sizes of its declarations.
pub fn sizes_are_kept()
    ensures { (p : Program) (start : BodyStart) (replies : FinMap nat_cmp Known) (n : ℕ) → is_typed p ≡ true → StartFits p start → RepliesFit p start replies n → Sized p start (yield_of p start replies n) }
{}

/// A well typed program's body waits only where it forced what hangs on a call without a reply: not where each call that
/// it made has one. A body that can call no member of a persistent object makes no call and never waits, nor does the
/// direct run of a program without persistent classes.
pub fn only_replies_are_awaited()
    ensures answered { (p : Program) (start : BodyStart) (replies : FinMap nat_cmp Known) (n : ℕ) → is_typed p ≡ true → StartFits p start → RepliesFit p start replies n → Every (HasReply replies) (yield_of p start replies n).calls → (yield_of p start replies n).end ≢ end.Waits }
    ensures silent { (p : Program) (start : BodyStart) (replies : FinMap nat_cmp Known) (n : ℕ) → is_typed p ≡ true → StartFits p start → (CanCall p.declarations start.member → ⊥) → (yield_of p start replies n).calls ≡ [] }
    ensures never { (p : Program) (start : BodyStart) (replies : FinMap nat_cmp Known) (n : ℕ) → is_typed p ≡ true → StartFits p start → (CanCall p.declarations start.member → ⊥) → (yield_of p start replies n).end ≢ end.Waits }
    ensures direct { (p : Program) (input : List ℤ) (n : ℕ) → is_typed p ≡ true → (HasPersistent p.declarations → ⊥) → (direct_run p input n).end ≢ end.Waits }
{}

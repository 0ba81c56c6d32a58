//! Laws of whole journals. A journal is read from its end: its newest entry comes first.
ghost use Rattle.std.specs.Prelude.{◌≡◌, ◌≢◌, ◌↔◌, ◌≤◌, ℕ, true, List, ◌∷◌, ◌++◌};
ghost use Rattle.mpl_mean.specs.Laws.Sizes.{Every};
ghost use Rattle.mpl_value.specs.Growing.{Grows};
ghost use Rattle.mpl_value.specs.declared.body.BodyEnd.TheVariants as end;
ghost use Rattle.mpl_value.specs.declared.body.BodyStart.{BodyStart};
ghost use Rattle.mdf_mean.specs.Agree.{Agrees, SameJournal};
ghost use Rattle.mdf_mean.specs.Decides.{is_closed, is_explained, is_justified};
ghost use Rattle.mdf_mean.specs.Explained.{Closed, Explained, Justified, Over, turns_of};
ghost use Rattle.mdf_mean.specs.Fits.{Fits, Lawful};
ghost use Rattle.mdf_mean.specs.Histories.{replies_to};
ghost use Rattle.mdf_mean.specs.Later.{AddsTo};
ghost use Rattle.mdf_mean.specs.Meanings.{Meaning, Setting};
ghost use Rattle.mdf_mean.specs.Ran.{ran, starts_of};
ghost use Rattle.mdf_mean.specs.declared.entry.Entry.{Entry};

use crate::bodies::Bodies;

/// The tests decide what is justified, explained and closed.
pub fn tests_decide()
    ensures justified { (s : Setting) (before : List Entry) (e : Entry) → is_justified s before e ≡ true ↔ Justified s before e }
    ensures explained { (s : Setting) (journal : List Entry) → is_explained s journal ≡ true ↔ Explained s journal }
    ensures closed { (s : Setting) (journal : List Entry) → is_closed s journal ≡ true ↔ Closed s journal }
{}

/// Along an explained journal each body starts from what fits, and its replies fit its calls, so that the laws of the
/// meaning hold of it at each front.
pub fn starts_and_replies_fit()
    ensures { (s : Setting) (journal : List Entry) → Lawful s.meaning → Explained s journal →
        Every (λ (start : BodyStart). Fits s.meaning start (replies_to start.number journal) s.turns) (starts_of s journal) }
{}

/// What is explained stays so whatever follows: each front of an explained journal is explained, and an entry of it is
/// justified by those before it.
pub fn justifications_stay()
    ensures fronts { (s : Setting) (later front : List Entry) → Explained s (later ++ front) → Explained s front }
    ensures entries { (s : Setting) (later : List Entry) (e : Entry) (before : List Entry) → Explained s (later ++ e ∷ before) → Justified s before e }
{}

/// Entries that are added leave each body that was there with its start, and what it does only grows.
pub fn bodies_stay()
    ensures starts { (s : Setting) (later front : List Entry) → AddsTo (starts_of s front) (starts_of s (later ++ front)) }
    ensures grow { (s : Setting) (later front : List Entry) → Lawful s.meaning → Explained s (later ++ front) →
        Every (λ (start : BodyStart). (ran s (later ++ front) start).yield.end ≢ end.Spent → Grows (ran s front start).yield (ran s (later ++ front) start).yield) (starts_of s front) }
{}

/// The turns of a journal never fall. Where they are within what a body is given, no body of any front is spent. An
/// explained journal that isn't over keeps within it.
pub fn turns_never_fall()
    ensures grow { (s : Setting) (later front : List Entry) → Lawful s.meaning → Explained s (later ++ front) → turns_of s front ≤ turns_of s (later ++ front) }
    ensures calm { (s : Setting) (later front : List Entry) → Lawful s.meaning → Explained s (later ++ front) → turns_of s (later ++ front) ≤ s.turns →
        Every (λ (start : BodyStart). (ran s front start).yield.end ≢ end.Spent) (starts_of s front) }
    ensures within { (s : Setting) (journal : List Entry) → Explained s journal → (Over s journal → ⊥) → turns_of s journal ≤ s.turns }
{}

/// Where the turns of an explained journal are within what a body is given, to give more changes nothing.
pub fn more_turns_change_no_journal()
    ensures { (s : Setting) (journal : List Entry) (n : ℕ) → Lawful s.meaning → Explained s journal → turns_of s journal ≤ s.turns → s.turns ≤ n →
        SameJournal s (record s { turns = n }) journal }
{}

/// Two meanings that agree on starts and replies that fit explain the same journals, and these mean the same.
pub fn agreeing_meanings_explain_the_same()
    ensures explained { (s : Setting) (other : Meaning) (journal : List Entry) → Lawful s.meaning → Agrees s.meaning other →
        Explained s journal ↔ Explained (record s { meaning = other }) journal }
    ensures same { (s : Setting) (other : Meaning) (journal : List Entry) → Lawful s.meaning → Agrees s.meaning other → Explained s journal →
        SameJournal s (record s { meaning = other }) journal }
    ensures over { (s : Setting) (other : Meaning) (journal : List Entry) → Lawful s.meaning → Agrees s.meaning other →
        Over s journal ↔ Over (record s { meaning = other }) journal }
{}

/// The laws of meanings hold of each program that has bodies.
pub fn programs_are_lawful<B: Bodies>()
    ensures { (p : B) → B.is_sound p → Lawful (B.meaning p) }
{}

ghost use Rattle.std.specs.Prelude.{◌≡◌, ℕ, [], ◌∷◌};
ghost use Rattle.mpl_value.specs.declared.known.Known.{Known};
ghost use Rattle.mdf_match.specs.declared.token.Tag.{Tag};
ghost use Rattle.mdf_future.specs.declared.consumer.Consumer.TheVariants.{Parked, Port, Result};
ghost use Rattle.mdf_future.specs.declared.future.Give.TheVariants as gives;
ghost use Rattle.mdf_future.specs.Calls.{EachIsDueOnce, Opens, Waits, Gives, Takes, queue};
ghost use Rattle.mdf_future.specs.Openings.{HasOpened, HaveResults, Passed, opened_with};
ghost use Rattle.mdf_future.specs.Results.{ResultTable};

/// What is due follows from the calls alone: each consumer of a result that is known once, but for parked actors; in
/// the order in which results became known, and of one result in the order in which its consumers were added.
pub fn each_consumer_is_due_once()
    ensures { EachIsDueOnce }
{}

/// A result that is opened with ports that wait is open, and each result that is passed to them and isn't known has these
/// ports behind its other consumers. Where it is known they are due, behind all others.
pub fn ports_wait_for_what_is_passed()
    ensures { (before : ResultTable) (actor : ℕ) (passed : Passed) → HaveResults before passed → HasOpened before actor passed (opened_with before actor passed) }
{}

/// What is due after a few calls, the newest of which stands first.
pub fn few_calls()
    ensures known { (port : Tag) (v : Known) → queue (Gives 4 (gives.Known v) ∷ Waits 4 (Port port) ∷ Opens 4 ∷ []) ≡ (record { consumer = Port port; from = 4 }) ∷ [] }
    ensures taken { (port : Tag) (v : Known) → queue (Takes 0 ∷ Gives 4 (gives.Known v) ∷ Waits 4 (Port port) ∷ Opens 4 ∷ []) ≡ [] }
    ensures forwarded { (port : Tag) (v : Known) → queue (Gives 4 (gives.Known v) ∷ Gives 4 (gives.Result 6) ∷ Waits 4 (Port port) ∷ Opens 4 ∷ []) ≡ (record { consumer = Port port; from = 4 }) ∷ [] }
    ensures parked { (v : Known) → queue (Waits 4 (Parked 1) ∷ Gives 4 (gives.Known v) ∷ Waits 4 (Parked 1) ∷ Opens 4 ∷ []) ≡ [] }
    ensures before_and_after { (port : Tag) (v : Known) → queue (Waits 4 (Port port) ∷ Gives 4 (gives.Known v) ∷ Waits 4 (Parked 1) ∷ Waits 4 (Result 2) ∷ Opens 4 ∷ [])
        ≡ (record { consumer = Result 2; from = 4 }) ∷ (record { consumer = Port port; from = 4 }) ∷ [] }
    ensures as_they_became_known { (v w : Known) → queue (Gives 4 (gives.Known v) ∷ Gives 9 (gives.Known w) ∷ Waits 4 (Result 2) ∷ Waits 9 (Result 3) ∷ Opens 9 ∷ Opens 4 ∷ [])
        ≡ (record { consumer = Result 3; from = 9 }) ∷ (record { consumer = Result 2; from = 4 }) ∷ [] }
{}

ghost use Rattle.std.specs.Prelude.{ℕ, Bool, List, Option};
ghost use Rattle.mdf_turn.specs.Actors.{OthersStay};

/// A value with a log of events that only grows, as far as contracts know.
pub trait Logged: Drop + Send {
    type Job;

    type Event;

    // What the value is about. It is the same for as long as the turn lasts.
    ghost job: { Self → Self.Job };

    // Oldest first.
    ghost events: { Self → List Self.Event };

    ghost actor: { Self.Event → Option ℕ };

    ghost is_out: { List Self.Event → ℕ → Bool };

    ghost has_ended: { List Self.Event → Bool };

    ghost others_stay: { OthersStay actor is_out };
}

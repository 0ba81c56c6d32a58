//! The least failure.

ghost use Rattle.std.specs.Prelude.{◌≡◌};
ghost use Rattle.mpl_mean.specs.TypeRules.Rules.{is_before};
ghost use Rattle.mpl_types.specs.Internal.Least.{earlier, noted};
ghost use Rattle.mpl_types.specs.Internal.Seen.{failure_of};

/// A rule that fails at a node which begins at a byte.
#[derive(Clone, Copy)]
pub struct Failure {
    pub at: u32,
    pub rule: u32,
}

fn is_before(a: Failure, b: Failure) -> bool
    ensures { result ≡ is_before (record { at = a.at; rule = a.rule }) (record { at = b.at; rule = b.rule }) }
{
    a.at < b.at || (a.at == b.at && a.rule < b.rule)
}

/// The lesser of two, where there are two.
pub fn earlier(a: Option<Failure>, b: Option<Failure>) -> Option<Failure>
    ensures { failure_of result ≡ earlier (failure_of a) (failure_of b) }
{
    match (a, b) {
        (Some(a), Some(b)) => Some(if is_before(b, a) { b } else { a }),
        (None, b) => b,
        (a, None) => a,
    }
}

/// What fails among the rest of the nodes, and a rule at this one unless it holds.
pub fn noted(at: u32, rule: u32, holds: bool, rest: Option<Failure>) -> Option<Failure>
    ensures { failure_of result ≡ noted at rule holds (failure_of rest) }
{
    if holds {
        rest
    } else {
        earlier(Some(Failure { at, rule }), rest)
    }
}

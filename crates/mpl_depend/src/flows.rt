ghost use Rattle.std.specs.Prelude.{◌≡◌, ℕ, map, option_map, Some, IfOk};
ghost use Rattle.mpl_mean.specs.Pending.BodyWays.{becomes, event_of, flow_ways, flows_ways, held_event, unless_whole, value_ways};
ghost use Rattle.mpl_mean.specs.Pending.Paths.{Only};
ghost use Rattle.mpl_mean.specs.Plain.Expr.{expr_of, expr_of_call, expr_of_flow, listed};
ghost use Rattle.mpl_mean.specs.Plain.Scopes.{Slot, whole_slot};
ghost use Rattle.mpl_locals.specs.SeenLocals.{slot_seen};
ghost use Rattle.mpl_depend.specs.Internal.SeenScope.{env_seen};
ghost use Rattle.mpl_depend.specs.Internal.SeenWays.{event_seen, ways_seen};

use crate::expressions::expression;
use crate::making::{all, only, then};
use crate::scope::Scope;
use crate::uses::receives;
use crate::ways::{Event, Ways};
use crate::wholes::whole;
use mpl_ast::expression::Expression;
use mpl_ast::flow::{Call, Flow};
use mpl_locals::locals::Slot;
use mpl_value::NoMemory;

/// What a flow passes on. A whole variable is passed on as it stands.
#[cycle(flow)]
pub fn flow<'a>(scope: &Scope<'a>, node: &'a Flow) -> Result<Ways, NoMemory>
    ensures { IfOk result (λ ways. ways_seen ways ≡ flow_ways (env_seen scope.now) (expr_of_flow node.now)) }
{
    match node {
        Flow::OfCall(_, inner) => call(scope, inner.get()),
        Flow::OfExpression(_, inner) => passed(scope, inner),
    }
}

fn passed<'a>(scope: &Scope<'a>, node: &'a Expression) -> Result<Ways, NoMemory>
    ensures { IfOk result (λ ways. ways_seen ways ≡ flow_ways (env_seen scope.now) (expr_of node.now)) }
{
    match whole(scope, node) {
        Some(_) => Ok(Ways::Nothing),
        None => expression(scope, node),
    }
}

#[cycle(flow)]
pub fn call<'a>(scope: &Scope<'a>, node: &'a Call) -> Result<Ways, NoMemory>
    ensures { IfOk result (λ ways. ways_seen ways ≡ value_ways (env_seen scope.now) (expr_of_call node.now)) }
{
    match node {
        Call::OnOwn(_, _, list) => flows(scope, list.as_slice()),
        Call::OnTarget(at, target, _, list) => {
            let first = receives(scope, at.id, target);
            let second = flows(scope, list.as_slice())?;
            then(scope.alloc, first, second)
        }
    }
}

#[cycle(flow)]
fn flows<'a>(scope: &Scope<'a>, list: &'a [Flow]) -> Result<Ways, NoMemory>
    ensures { IfOk result (λ ways. ways_seen ways ≡ flows_ways (env_seen scope.now) (listed (map expr_of_flow list.now))) }
{
    let mut ways = Vec::new(scope.alloc);
    for node in list {
        ways.push(flow(scope, node)?)?;
    }
    Ok(all(ways))
}

/// What a flow evaluates where its value is asked for: a whole variable is forced.
pub fn forced<'a>(scope: &Scope<'a>, node: &'a Flow) -> Result<Ways, NoMemory>
    ensures { IfOk result (λ ways. ways_seen ways ≡ value_ways (env_seen scope.now) (expr_of_flow node.now)) }
{
    match node {
        Flow::OfCall(_, inner) => call(scope, inner.get()),
        Flow::OfExpression(_, inner) => expression(scope, inner),
    }
}

/// A whole variable becomes what a flow passes on.
pub fn becomes<'a>(scope: &Scope<'a>, variable: usize, node: &'a Flow) -> Result<Ways, NoMemory>
    ensures { IfOk result (λ ways. ways_seen ways ≡ becomes (env_seen scope.now) variable (expr_of_flow node.now)) }
{
    let first = flow(scope, node)?;
    then(scope.alloc, first, only(event_of(scope, variable, node)))
}

fn event_of<'a>(scope: &Scope<'a>, variable: usize, node: &'a Flow) -> Event
    ensures { event_seen result ≡ event_of (env_seen scope.now) variable (expr_of_flow node.now) }
{
    match node {
        Flow::OfCall(..) => Event::Loosens(variable),
        Flow::OfExpression(_, inner) => held_event(variable, whole(scope, inner)),
    }
}

fn held_event(variable: usize, slot: Option<Slot>) -> Event
    ensures { event_seen result ≡ held_event variable (option_map slot_seen slot.entry) }
{
    match slot {
        Some(slot) => Event::Copies(variable, slot.number),
        None => Event::Settles(variable),
    }
}

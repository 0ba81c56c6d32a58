use crate::expression::{Expression, Place, Target};
use crate::place::{At, Name};
use sqlite_items::{Boxed, Items};

/// `call | expr`. What has the form of a call is a call.
#[cycle(flow)]
#[derive(Drop)]
pub enum Flow {
    OfCall(At, Boxed<Call>),
    OfExpression(At, Expression),
}

/// `('self' | target) '.' NAME '(' (flow % ',')? ')'`
#[cycle(flow)]
#[derive(Drop)]
pub enum Call {
    OnOwn(At, Name, Items<Flow>),
    OnTarget(At, Target, Name, Items<Flow>),
}

/// `place '=' flow`
#[derive(Drop)]
pub struct Assignment {
    pub at: At,
    pub place: Place,
    pub value: Flow,
}

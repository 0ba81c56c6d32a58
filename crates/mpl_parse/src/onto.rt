//! Statements put behind others, and out of a list into a box.

ghost use Rattle.std.specs.Prelude.{◌≡◌, [], ◌∷◌, ◌++◌, true, IfOk, OnOk, Err};
ghost use Rattle.mpl_ast.specs.declared.statement.Statement.{Statement, roll-Statement};
ghost use Rattle.mpl_ast.specs.declared.statement.Statement.TheOpen.{Statement-F};
ghost use Rattle.mpl_trees.specs.Taking.{Takes, ahead};
ghost use Rattle.mpl_reader.specs.Reader.{rest_of};
ghost use Rattle.mpl_reader.specs.declared.stop.Stop.TheVariants as stop;
ghost use Rattle.mpl_parse.specs.Internal.Forms.{statement_of};
ghost use Rattle.mpl_parse.specs.Internal.Onto.{TookOnto, is_plain};

use crate::simple::plain;
use mpl_ast::At;
use mpl_ast::expression::Expression;
use mpl_ast::statement::{Block, ForHead, Statement};
use mpl_reader::{Reader, Stop};
use sqlite_items::{Boxed, Items};
use std::alloc::Global;

/// A statement in which no statement stands.
pub fn plain_onto(
    alloc: Global,
    reader: &mut Reader<'_>,
    depth: usize,
    list: &mut Items<Statement>,
) -> Result<(), Stop>
    ensures { (statement : Takes Statement) → is_plain (ahead reader.old.left.now) ≡ true → TookOnto (statement_of depth statement) (rest_of reader.old) list.old result (rest_of reader.new) list.new }
{
    put(list, plain(alloc, reader, depth)?)
}

/// Here alone a statement is moved as it is, since the proof of each such move is long.
fn put(list: &mut Items<Statement>, statement: Statement) -> Result<(), Stop>
    ensures ok { OnOk result (list.new ≡ list.old ++ statement ∷ []) }
    ensures memory { result ≡ Err stop.Stuck → ⊥ }
{
    list.push(statement)?;
    Ok(())
}

pub fn put_block(list: &mut Items<Statement>, at: At, block: Block) -> Result<(), Stop>
    ensures ok { OnOk result (list.new ≡ list.old ++ roll-Statement (Statement-F.OfBlock at block) ∷ []) }
    ensures memory { result ≡ Err stop.Stuck → ⊥ }
{
    put(list, Statement::OfBlock(at, block))
}

pub fn put_if(
    list: &mut Items<Statement>,
    at: At,
    test: Expression,
    first: Boxed<Statement>,
    other: Option<Boxed<Statement>>,
) -> Result<(), Stop>
    ensures ok { OnOk result (list.new ≡ list.old ++ roll-Statement (Statement-F.If at test first other) ∷ []) }
    ensures memory { result ≡ Err stop.Stuck → ⊥ }
{
    put(list, Statement::If(at, test, first, other))
}

pub fn put_while(
    list: &mut Items<Statement>,
    at: At,
    test: Expression,
    body: Boxed<Statement>,
) -> Result<(), Stop>
    ensures ok { OnOk result (list.new ≡ list.old ++ roll-Statement (Statement-F.While at test body) ∷ []) }
    ensures memory { result ≡ Err stop.Stuck → ⊥ }
{
    put(list, Statement::While(at, test, body))
}

pub fn put_for(
    list: &mut Items<Statement>,
    at: At,
    head: Boxed<ForHead>,
    body: Boxed<Statement>,
) -> Result<(), Stop>
    ensures ok { OnOk result (list.new ≡ list.old ++ roll-Statement (Statement-F.For at head body) ∷ []) }
    ensures memory { result ≡ Err stop.Stuck → ⊥ }
{
    put(list, Statement::For(at, head, body))
}

/// The one statement of a list, in a box.
pub fn only(alloc: Global, mut list: Items<Statement>) -> Result<Boxed<Statement>, Stop>
    ensures ok { IfOk result (λ statement. (before : _) × (list ≡ before ++ statement ∷ [])) }
    ensures stuck { result ≡ Err stop.Stuck → list ≡ [] }
{
    let Some(statement) = list.pop() else {
        return Err(Stop::Stuck);
    };
    Ok(Boxed::new(alloc, statement)?)
}

//! The members of a class by their names.

ghost use Rattle.std.specs.Prelude.{◌≡◌, ◌+◌, ℕ, List, [], ◌∷◌, ◌<◌, option_map, length, OnOk, IfOk};
ghost use Rattle.mpl_mean.specs.Meaning.Layout.{formals_of, members_from, member_named};
ghost use Rattle.mpl_mean.specs.TypeRules.Typing.{member_of};
ghost use Rattle.mpl_scope.specs.First.{at, or_else};
ghost use Rattle.mpl_scope.specs.SeenMembers.{seen_member};

use crate::first_named::FirstNamed;
use crate::types::is_same;
use mpl_ast::Name;
use mpl_ast::class::{Formal, Formals, Item, ResultType};
use mpl_ast::statement::Block;
use mpl_value::NoMemory;
use std::alloc::Global;
use std::marker::Model;

/// So many items are gone through one by one, which takes less than a table of their members.
const FEW: usize = 8;

/// A member, and its place among those of its class.
#[derive(Clone, Copy)]
pub struct Member<'a> {
    pub id: usize,
    pub name: &'a [u8],
    pub result: &'a ResultType,
    pub formals: &'a [Formal],
    pub body: &'a Block,
}

/// The items of a class.
#[derive(Drop)]
pub struct Members<'a> {
    items: &'a [Item],
    /// The first member of each name, where the items are more than a few.
    first: FirstNamed<'a, Member<'a>>,
}

impl<'a> Model for Members<'a> {
    ghost use Rattle.std.specs.Prelude.{◌≡◌, ◌<◌, List, ℕ, length, option_map};
    ghost use Rattle.std.specs.Coded.{codes};
    ghost use Rattle.mpl_ast.specs.contracts.expression.Expression as expression;
    ghost use Rattle.mpl_ast.specs.contracts.flow.Flow as flow;
    ghost use Rattle.mpl_ast.specs.contracts.statement.Statement as statement;
    ghost use Rattle.mpl_ast.specs.declared.class.Item.{Item};
    ghost use Rattle.mpl_mean.specs.TypeRules.Typing.{member_of};
    ghost use Rattle.mpl_scope.specs.First.{at};
    ghost use Rattle.mpl_scope.specs.SeenMembers.{seen_member};

    ghost Value = { List Item };

    ghost coded = { Prim.hlevel (codes, expression.the_row.coded, flow.the_row.coded, statement.the_row.coded) };

    ghost view = { λ m. m.items.now };

    ghost invariant = { λ m. 8 < length m.items.now → (name : List ℕ) → option_map seen_member (at m.first name) ≡ member_of name m.items.now };
}

impl<'a> Members<'a> {
    pub fn of(alloc: Global, items: &'a [Item]) -> Result<Members<'a>, NoMemory>
        ensures { IfOk result (λ members. members ≡ items.now) }
    {
        let first = if items.len() <= FEW {
            FirstNamed::new(alloc)
        } else {
            table_of(alloc, items)?
        };
        Ok(Members { items, first })
    }

    pub fn find(&self, name: &'a [u8]) -> Option<Member<'a>>
        ensures { option_map seen_member result ≡ member_of name.now self.now }
    {
        if self.items.len() <= FEW {
            first_among(self.items, name)
        } else {
            self.first.find(name).copied()
        }
    }
}

fn first_among<'a>(items: &'a [Item], name: &[u8]) -> Option<Member<'a>>
    ensures { option_map seen_member result ≡ member_of name.now items.now }
{
    let mut id = 0;
    for item in items {
        match item {
            Item::Member(_, declared, name_here, formals, body) => {
                if is_same(name_here.text.as_slice(), name) {
                    return Some(numbered(id, declared, name_here, formals, body));
                }
                id += 1;
            }
            Item::OfField(..)
            | Item::Select(..)
            | Item::Public(..)
            | Item::Private(..)
            | Item::Empty(..) => {}
        }
    }
    None
}

fn numbered<'a>(
    id: usize,
    declared: &'a ResultType,
    name: &'a Name,
    formals: &'a Option<Formals>,
    body: &'a Block,
) -> Member<'a>
    ensures { seen_member result ≡ record { id = id; name = name.now.text; result = declared.now; formals = formals_of formals.now; body = body.now } }
{
    Member {
        id,
        name: name.text.as_slice(),
        result: declared,
        formals: formals_of(formals),
        body,
    }
}

/// The first member of each name.
fn table_of<'a>(alloc: Global, items: &'a [Item]) -> Result<FirstNamed<'a, Member<'a>>, NoMemory>
    ensures { IfOk result (λ first. (q : List ℕ) → option_map seen_member (at first q) ≡ member_of q items.now) }
{
    let mut first = FirstNamed::new(alloc);
    let mut id = 0;
    for item in items {
        id += add_member(&mut first, id, item)?;
    }
    Ok(first)
}

/// The item, if it is a member; and how many members that is.
fn add_member<'a>(
    first: &mut FirstNamed<'a, Member<'a>>,
    id: usize,
    item: &'a Item,
) -> Result<usize, NoMemory>
    ensures few { IfOk result (λ count. count < 2) }
    ensures found { IfOk result (λ count. (q : List ℕ) (others : List Item) →
        or_else (option_map seen_member (at first.new q)) (member_named q (members_from (id + count) others))
        ≡ or_else (option_map seen_member (at first.old q)) (member_named q (members_from id (item.now ∷ others)))) }
{
    match item {
        Item::Member(_, declared, name, formals, body) => {
            let member = numbered(id, declared, name, formals, body);
            first.add(member.name, member)?;
            Ok(1)
        }
        Item::OfField(..)
        | Item::Select(..)
        | Item::Public(..)
        | Item::Private(..)
        | Item::Empty(..) => Ok(0),
    }
}

/// The formals, if any.
pub fn formals_of(formals: &Option<Formals>) -> &[Formal]
    ensures { result.now ≡ formals_of formals.now }
{
    match formals {
        Some(formals) => formals.list.as_slice(),
        None => &[],
    }
}

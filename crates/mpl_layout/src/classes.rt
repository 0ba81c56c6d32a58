//! The classes of a program, one after another and by their names.

ghost use Rattle.std.specs.Prelude.{◌≡◌, ◌≤◌, ◌<◌, ℕ, ◌+◌, List, [], ◌∷◌, ◌++◌, length, map, option_map, IfOk};
ghost use Rattle.mpl_ast.specs.declared.class.Item.{Item};
ghost use Rattle.mpl_ast.specs.declared.program.Declaration.{Declaration};
ghost use Rattle.mpl_mean.specs.Laws.Sizes.{Every};
ghost use Rattle.mpl_mean.specs.Meaning.Layout as layout;
ghost use Rattle.mpl_mean.specs.Meaning.Layout.{class_named, classes_from, classes_of, members_from};
ghost use Rattle.mpl_scope.specs.First.{at};
ghost use Rattle.mpl_layout.specs.Bounds.{HasFewMembers};
ghost use Rattle.mpl_layout.specs.ClassItems.{class_items};
ghost use Rattle.mpl_layout.specs.SeenClasses.{class_seen, items_seen};

use crate::class::Class;
use mpl_ast::class::{Item, Kind};
use mpl_ast::program::Declaration;
use mpl_scope::first_named::FirstNamed;
use mpl_value::NoMemory;
use std::alloc::Global;

pub fn classes_of<'a>(
    alloc: Global,
    declarations: &'a [Declaration],
) -> Result<Vec<Class<'a>>, NoMemory>
    requires few { length declarations.now ≤ 4096 }
    requires members { Every HasFewMembers declarations.now }
    ensures are { IfOk result (λ classes. map class_seen classes.items ≡ classes_of declarations.now) }
    ensures items { IfOk result (λ classes. map items_seen classes.items ≡ class_items declarations.now) }
{
    let mut classes = Vec::new(alloc);
    let mut first = 0;
    for declaration in declarations {
        first = add_class(&mut classes, first, declaration)?;
    }
    Ok(classes)
}

/// One more declaration, which may be a class. Answers the number of the next member.
fn add_class<'a>(
    classes: &mut Vec<Class<'a>>,
    first: u32,
    declaration: &'a Declaration,
) -> Result<u32, NoMemory>
    requires many { length classes.old.items < 4096 }
    requires room { first + 64 ≤ 262144 }
    requires members { HasFewMembers declaration.now }
    ensures are { IfOk result (λ next. (others : List Declaration) →
        map class_seen classes.new.items ++ classes_from (length classes.new.items) next others ≡ map class_seen classes.old.items ++ classes_from (length classes.old.items) first (declaration.now ∷ others)) }
    ensures next { IfOk result (λ next. next ≤ first + 64) }
    ensures few { IfOk result (λ next. length classes.new.items ≤ length classes.old.items + 1) }
    ensures items { IfOk result (λ next. (others : List Declaration) → map items_seen classes.new.items ++ class_items others ≡ map items_seen classes.old.items ++ class_items (declaration.now ∷ others)) }
{
    match declaration {
        Declaration::Class(_, _, kind, name, items) => {
            let items = items.as_slice();
            push_class(
                classes,
                Class {
                    number: count_of(classes),
                    first,
                    name: name.text.as_slice(),
                    is_regular: is_regular(kind),
                    items,
                },
            )
        }
        Declaration::Struct(..) => Ok(first),
        Declaration::Function(..) => Ok(first),
    }
}

fn count_of(classes: &Vec<Class>) -> u32
    requires { length classes.now.items < 4096 }
    ensures { result ≡ length classes.now.items }
{
    classes.as_slice().len() as u32
}

#[tactic(auto, using(crate::proofs::ClassesInOrder::class_added, crate::proofs::ClassesInOrder::as_many_members))]
fn push_class<'a>(classes: &mut Vec<Class<'a>>, class: Class<'a>) -> Result<u32, NoMemory>
    requires { class.number ≡ length classes.old.items }
    ensures are { IfOk result (λ next. (others : List Declaration) →
        map class_seen classes.new.items ++ classes_from (length classes.new.items) next others
        ≡ map class_seen classes.old.items ++ class_seen class.entry ∷ classes_from (length classes.old.items + 1) (class.entry.first + length (members_from class.entry.first class.entry.items.now)) others) }
    ensures items { IfOk result (λ next. map items_seen classes.new.items ≡ map items_seen classes.old.items ++ items_seen class.entry ∷ []) }
    ensures next { IfOk result (λ next. next ≡ class.entry.first + length (members_from 0 class.entry.items.now)) }
    ensures few { IfOk result (λ next. length classes.new.items ≤ length classes.old.items + 1) }
{
    let next = class.first + count_members(class.items);
    classes.push(class)?;
    Ok(next)
}

fn is_regular(kind: &Kind) -> bool
    ensures { result ≡ layout.is_regular kind.now }
{
    match kind {
        Kind::Regular(_) => true,
        Kind::Persistent(_) => false,
    }
}

fn count_members(items: &[Item]) -> u32
    requires { length (members_from 0 items.now) ≤ 262144 }
    ensures { result ≡ length (members_from 0 items.now) }
{
    let mut count = 0;
    for item in items {
        count += counted(item);
    }
    count
}

/// One for a member, and none for anything else.
#[tactic(auto, using(crate::proofs::ClassesInOrder::as_many_members))]
fn counted(item: &Item) -> u32
    ensures { (others : List Item) → result + length (members_from 0 others) ≡ length (members_from 0 (item.now ∷ others)) }
{
    match item {
        Item::Member(..) => 1,
        Item::OfField(..) => 0,
        Item::Select(..) => 0,
        Item::Public(..) => 0,
        Item::Private(..) => 0,
        Item::Empty(..) => 0,
    }
}

/// The first class of each name.
pub fn by_name<'a>(
    alloc: Global,
    classes: &[Class<'a>],
) -> Result<FirstNamed<'a, Class<'a>>, NoMemory>
    ensures { IfOk result (λ named. (name : List ℕ) → option_map class_seen (at named name) ≡ class_named name (map class_seen classes.now)) }
{
    let mut named = FirstNamed::new(alloc);
    for class in classes {
        named.add(class.name, *class)?;
    }
    Ok(named)
}

//! The entries of the classes of an image, with their guards.

ghost use Rattle.std.specs.Prelude.{◌≡◌, ◌<◌, ℕ, ◌+◌, List, ◌∷◌, ◌++◌, map, option_map, IfOk, OnOk};
ghost use Rattle.mpl_ast.specs.declared.class.Entry.{Entry};
ghost use Rattle.mpl_ast.specs.declared.class.Item.{Item};
ghost use Rattle.mpl_mean.specs.Laws.Sizes.{Every};
ghost use Rattle.mpl_mean.specs.Meaning.Layout.{classes_of, member_named, members_from, natural, parts_of};
ghost use Rattle.mpl_gen_code.specs.ProgramImage.{all_entries, entries_image, entries_of_select, selects_of};
ghost use Rattle.mpl_gen_bounds.specs.ImageFits.{EntryFits, GuardFits};
ghost use Rattle.mpl_gen_body.specs.Internal.Accepting.{accepted_as, accepted_seen, formals_among, guard_with};
ghost use Rattle.mpl_gen_body.specs.Internal.Fitting.{ListedFits};
ghost use Rattle.mpl_scope.specs.First.{or_else};
ghost use Rattle.mpl_layout.specs.Bounds.{StateFits};
ghost use Rattle.mpl_gen_scope.specs.SeenSelects.{select_seen};
ghost use Rattle.mpl_layout.specs.SeenClasses.{class_seen};
ghost use Rattle.mpl_layout.specs.SeenParts.{part_seen};

use crate::bodies::{Object, formals_of, scope_of};
use crate::classes::select_of;
use mdf_code::{CodeText, RawEntries, RawEntry};
use mpl_ast::class::{Entry, Formal, Item};
use mpl_ast::expression::Expression;
use mpl_gen_expr::codes::Codes;
use mpl_gen_expr::expressions::expression;
use mpl_gen_scope::marks::Marks;
use mpl_gen_scope::outline::Outline;
use mpl_gen_scope::scope::Finish;
use mpl_layout::class::Class;
use mpl_layout::members::member_id;
use mpl_layout::name::is_same;
use mpl_layout::part::Part;
use mpl_layout::parts::parts_of_items;
use mpl_value::{MemberId, NoMemory};
use std::alloc::Global;

/// A member that an entry accepts: its number and its formals.
#[derive(Clone, Copy)]
pub struct Accepted<'a> {
    pub id: u32,
    pub formals: &'a [Formal],
}

pub fn entries_of<'o, 'a>(alloc: Global, outline: &'o Outline<'a>) -> Result<RawEntries, NoMemory>
    requires { Every EntryFits (all_entries outline.now (classes_of outline.now) (selects_of outline.now)) }
    ensures { IfOk result (λ entries. entries ≡ all_entries outline.now (classes_of outline.now) (selects_of outline.now)) }
{
    let mut entries = RawEntries::new(alloc);
    for class in outline.classes() {
        add_class(alloc, outline, &mut entries, *class)?;
    }
    Ok(entries)
}

fn add_class<'o, 'a>(
    alloc: Global,
    outline: &'o Outline<'a>,
    entries: &mut RawEntries,
    class: Class<'a>,
) -> Result<(), NoMemory>
    requires state { StateFits outline.now (class_seen class) }
    requires fits { Every EntryFits (entries_of_select outline.now (class_seen class) (select_seen class)) }
    ensures { OnOk result (entries.new ≡ entries.old ++ entries_of_select outline.now (class_seen class.entry) (select_seen class.entry)) }
{
    match select_of(class.items) {
        Some(list) => {
            let parts = parts_of_items(alloc, outline.layout(), class.items)?;
            add_entries(alloc, outline, parts.as_slice(), entries, class, list)
        }
        None => Ok(()),
    }
}

fn add_entries<'o, 'a>(
    alloc: Global,
    outline: &'o Outline<'a>,
    parts: &'o [Part<'a>],
    entries: &mut RawEntries,
    class: Class<'a>,
    list: &'a [Entry],
) -> Result<(), NoMemory>
    requires parts { map part_seen parts.now ≡ parts_of outline.now (class_seen class).state }
    requires fits { Every (ListedFits outline.now (class_seen class)) list.now }
    ensures { OnOk result (entries.new ≡ entries.old ++ entries_image outline.now (class_seen class.entry) list.now) }
{
    for entry in list {
        add_entry(alloc, outline, parts, entries, class, entry)?;
    }
    Ok(())
}

fn add_entry<'o, 'a>(
    alloc: Global,
    outline: &'o Outline<'a>,
    parts: &'o [Part<'a>],
    entries: &mut RawEntries,
    class: Class<'a>,
    entry: &'a Entry,
) -> Result<(), NoMemory>
    requires parts { map part_seen parts.now ≡ parts_of outline.now (class_seen class).state }
    requires fits { ListedFits outline.now (class_seen class) entry.now }
    ensures { OnOk result ((others : List Entry) →
        entries.new ++ entries_image outline.now (class_seen class.entry) others ≡ entries.old ++ entries_image outline.now (class_seen class.entry) (entry.now ∷ others)) }
{
    match member_named(class, entry.member.text.as_slice()) {
        Some(member) => {
            let guard = guard_of(alloc, outline, parts, member.formals, entry.guard.as_ref())?;
            entries.push(RawEntry {
                class: class.number,
                priority: priority_of(entry.priority.value),
                member: MemberId(member.id),
                guard,
            })
        }
        None => Ok(()),
    }
}

fn priority_of(value: i64) -> u8
    requires { natural value < 256 }
    ensures { result ≡ natural value }
{
    if value < 0 { 0 } else { value as u8 }
}

/// A guard sees the formals of its member and the state of its class.
fn guard_of<'o, 'a>(
    alloc: Global,
    outline: &'o Outline<'a>,
    parts: &'o [Part<'a>],
    formals: &'a [Formal],
    guard: Option<&'a Expression>,
) -> Result<Option<CodeText>, NoMemory>
    requires { GuardFits (guard_with outline.now (map part_seen parts.now) formals.now (option_map (λ guard. guard.now) guard)) }
    ensures { IfOk result (λ code. code ≡ guard_with outline.now (map part_seen parts.now) formals.now (option_map (λ guard. guard.now) guard.entry)) }
{
    match guard {
        Some(guard) => {
            let object = Object { class: None, parts };
            let finish = Finish::OfBody(0);
            let scope = scope_of(alloc, outline, Marks::of(&[]), finish, object, formals)?;
            let mut codes = Codes::new(alloc);
            expression(&scope, &mut codes, guard)?;
            Ok(Some(codes.into_text(alloc)?))
        }
        None => Ok(None),
    }
}

/// The member of a name, among those of its class.
#[tactic(auto, using(crate::proofs::MembersNamed::accepted_is, crate::proofs::MembersNamed::formals_are))]
fn member_named<'a>(class: Class<'a>, name: &[u8]) -> Option<Accepted<'a>>
    ensures { option_map accepted_seen result ≡ option_map accepted_as (member_named name.now (class_seen class.entry).members) }
{
    match member_id(class, name) {
        Some(id) => match formals_among(class.items, name) {
            Some(formals) => Some(Accepted { id, formals }),
            None => None,
        },
        None => None,
    }
}

/// The formals of the first member of a name.
fn formals_among<'a>(items: &'a [Item], name: &[u8]) -> Option<&'a [Formal]>
    ensures { option_map (λ formals. formals.now) result ≡ formals_among name.now items.now }
{
    for item in items {
        if let Some(formals) = formals_if_named(item, name) {
            return Some(formals);
        }
    }
    None
}

fn formals_if_named<'a>(item: &'a Item, name: &[u8]) -> Option<&'a [Formal]>
    ensures { (others : List Item) → formals_among name.now (item.now ∷ others) ≡ or_else (option_map (λ formals. formals.now) result) (formals_among name.now others) }
{
    match item {
        Item::Member(_, _, found, formals, _) => {
            if is_same(found.text.as_slice(), name) {
                Some(formals_of(formals))
            } else {
                None
            }
        }
        Item::OfField(..) => None,
        Item::Select(..) => None,
        Item::Public(..) => None,
        Item::Private(..) => None,
        Item::Empty(..) => None,
    }
}

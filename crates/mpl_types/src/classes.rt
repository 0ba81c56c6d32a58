//! Classes where they are declared.

ghost use Rattle.std.specs.Prelude.{◌≡◌, ◌+◌, ◌<◌, ◌≤◌, ◌^◌, OnOk, IfOk};
ghost use Rattle.mpl_mean.specs.Meaning.Layout.{natural};
ghost use Rattle.mpl_mean.specs.TypeRules.ClassRules.{member_may_have};
ghost use Rattle.mpl_mean.specs.TypeRules.NameRules.{class_has_member};
ghost use Rattle.mpl_types.specs.Internal.Outlines.{entries_least, entry_least, item_least, items_least, nothing_before, with_item};
ghost use Rattle.mpl_types.specs.Internal.Seen.{failure_of};
ghost use Rattle.mpl_types.specs.Internal.SeenBefore.{seen_before};

use crate::calls::has_value;
use crate::failure::{Failure, earlier, noted};
use crate::fields::{check_field, check_formals, check_result};
use mpl_ast::class::{Entry, Item};
use mpl_scope::earlier::Earlier;
use mpl_scope::kinds::Class;
use mpl_scope::members::formals_of;
use mpl_scope::names::Role;
use mpl_scope::outline::Outline;
use mpl_value::NoMemory;
use std::alloc::Global;

/// The most members of a class.
const MOST_MEMBERS: usize = 64;

/// The most entries of a select.
const MOST_ENTRIES: usize = 256;

const GREATEST_PRIORITY: i64 = 255;

/// The items that stand before one in its class.
#[derive(Drop)]
pub struct Before<'a> {
    pub names: Earlier<'a>,
    pub members: usize,
    pub selects: usize,
}

fn check_entry<'a>(
    class: &Class<'a>,
    before: usize,
    entry: &'a Entry,
    rest: Option<Failure>,
) -> Option<Failure>
    ensures { failure_of result ≡ entry_least class.now before entry.now (failure_of rest) }
{
    let has_member = class.member(entry.member.text.as_slice()).is_some();
    let of_member = noted(entry.member.from, 1, has_member, rest);
    let fits = entry.priority.value <= GREATEST_PRIORITY;
    let of_priority = noted(entry.priority.from, 10, fits, of_member);
    noted(entry.at.span.from, 8, before != MOST_ENTRIES, of_priority)
}

#[tactic(auto, using(std::proofs::lemmas::Grind::common_steps, crate::proofs::LeastLemmas::earlier_assoc, crate::proofs::LeastLemmas::earlier_none, crate::proofs::LoopLemmas::entry_and_others))]
fn check_entries<'a>(class: &Class<'a>, entries: &'a [Entry]) -> Option<Failure>
    ensures { failure_of result ≡ entries_least class.now 0 entries.now }
{
    let mut found = None;
    for i in 0..entries.len() {
        found = earlier(found, check_entry(class, i, &entries[i], None));
    }
    found
}

/// An item; it is counted behind it.
fn check_item<'a>(
    alloc: Global,
    outline: &'a Outline<'a>,
    class: &Class<'a>,
    before: &mut Before<'a>,
    item: &'a Item,
) -> Result<Option<Failure>, NoMemory>
    requires members { before.old.members < 2 ^ 63 }
    requires selects { before.old.selects < 2 ^ 63 }
    ensures failure { IfOk result (λ failure. failure_of failure ≡ item_least outline.now class.now (seen_before before.old) item.now) }
    ensures before { OnOk result (seen_before before.new ≡ with_item (seen_before before.old) item.now) }
    ensures members { before.new.members ≤ before.old.members + 1 }
    ensures selects { before.new.selects ≤ before.old.selects + 1 }
{
    match item {
        Item::OfField(at, field) => {
            let of_field = check_field(outline, Role::State, &mut before.names, field)?;
            Ok(noted(at.span.from, 9, !class.is_regular(), of_field))
        }
        Item::Member(at, declared, name, formals, _) => {
            let of_result = check_result(outline, declared);
            let of_formals = check_formals(alloc, outline, formals_of(formals))?;
            let of_parts = earlier(of_result, of_formals);
            let text = name.text.as_slice();
            let of_name = noted(name.from, 2, before.names.is_new(text), of_parts);
            let may_have = !class.is_regular() || has_value(declared);
            let of_value = noted(at.span.from, 25, may_have, of_name);
            let failure = noted(at.span.from, 8, before.members != MOST_MEMBERS, of_value);
            before.names.add(text)?;
            before.members += 1;
            Ok(failure)
        }
        Item::Select(at, _, entries) => {
            let of_entries = check_entries(class, entries.as_slice());
            let of_count = noted(at.span.from, 10, before.selects == 0, of_entries);
            before.selects += 1;
            Ok(noted(at.span.from, 9, !class.is_regular(), of_count))
        }
        Item::Public(_) | Item::Private(_) | Item::Empty(_) => Ok(None),
    }
}

#[tactic(auto, using(std::proofs::lemmas::Grind::common_steps, crate::proofs::LeastLemmas::earlier_assoc, crate::proofs::LeastLemmas::earlier_none))]
pub fn check_items<'a>(
    alloc: Global,
    outline: &'a Outline<'a>,
    class: &Class<'a>,
    items: &'a [Item],
) -> Result<Option<Failure>, NoMemory>
    ensures { IfOk result (λ failure. failure_of failure ≡ items_least outline.now class.now nothing_before items.now) }
{
    let mut before = Before {
        names: Earlier::new(alloc),
        members: 0,
        selects: 0,
    };
    let mut found = None;
    for item in items {
        found = earlier(found, check_item(alloc, outline, class, &mut before, item)?);
    }
    Ok(found)
}

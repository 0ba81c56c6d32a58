//! The members of a class by their names.

ghost use Rattle.std.specs.Prelude.{◌≡◌, ℕ, ◌+◌, List, ◌∷◌, option_map};
ghost use Rattle.mpl_ast.specs.declared.class.Item.{Item};
ghost use Rattle.mpl_mean.specs.Meaning.Layout.{Member, member_named, members_from};
ghost use Rattle.mpl_layout.specs.Members.{numbered_on};
ghost use Rattle.mpl_layout.specs.SeenClasses.{class_seen};

use crate::class::Class;
use crate::name::is_same;
use mpl_ast::class::Item;

/// The number of the member of a name.
#[tactic(auto, using(crate::proofs::ClassesInOrder::few_ids))]
pub fn member_id(class: Class, name: &[u8]) -> Option<u32>
    ensures { result ≡ option_map (λ (m : Member). m.id) (member_named name.now (class_seen class.entry).members) }
{
    match id_among(class, name) {
        Some(id) => Some(id as u32),
        None => None,
    }
}

fn id_among(class: Class, name: &[u8]) -> Option<usize>
    ensures { result ≡ option_map (λ (m : Member). m.id) (member_named name.now (class_seen class.entry).members) }
{
    let mut id = class.first as usize;
    for item in class.items {
        match is_named_member(item, name) {
            Some(true) => return Some(id),
            Some(false) => id += 1,
            None => {}
        }
    }
    None
}

/// Whether it is a member, and then whether it has this name.
fn is_named_member(item: &Item, name: &[u8]) -> Option<bool>
    ensures { (id : ℕ) (others : List Item) → option_map (λ (m : Member). m.id) (member_named name.now (members_from id (item.now ∷ others))) ≡ numbered_on result id (option_map (λ (m : Member). m.id) (member_named name.now (members_from (id + 1) others))) (option_map (λ (m : Member). m.id) (member_named name.now (members_from id others))) }
{
    match item {
        Item::Member(_, _, found, _, _) => Some(is_same(found.text.as_slice(), name)),
        Item::OfField(..) => None,
        Item::Select(..) => None,
        Item::Public(..) => None,
        Item::Private(..) => None,
        Item::Empty(..) => None,
    }
}

ghost use Rattle.std.specs.Prelude.{◌≡◌, ℕ, ◌+◌, true, ◌∷◌, List, length, map, nat_eq, option_map, IfOk};
ghost use Rattle.mpl_ast.specs.declared.class.Item.{Item};
ghost use Rattle.mpl_mean.specs.Laws.Sizes.{member_of_id, words_of_formal};
ghost use Rattle.mpl_mean.specs.Meaning.BodyMeaning.{member_of_classes};
ghost use Rattle.mpl_mean.specs.Meaning.Layout.{Class as Inner, Member, member_numbered, members_from};
ghost use Rattle.mpl_body_image.specs.Internal.Outlines.{found_on, members_on};
ghost use Rattle.mpl_layout.specs.SeenClasses.{class_seen};

use crate::image::formals_of;
use crate::outline::Outline;
use mpl_ast::class::{Formal, Item};
use mpl_layout::class::Class;
use mpl_layout::layout::declarations_of;
use mpl_layout::words::words_of;
use mpl_mean::Typed;
use mpl_value::{MemberId, NoMemory};
use std::alloc::Global;

/// How many words each formal of a member has.
pub fn formal_words(
    alloc: Global,
    typed: &Typed,
    id: MemberId,
) -> Result<Option<Vec<usize>>, NoMemory>
    ensures { IfOk result (λ found. option_map (λ words. words.items) found ≡ option_map (λ (found : Inner × Member). map (words_of_formal typed.now.declarations) found.1.formals) (member_of_id typed.now.declarations id)) }
{
    let outline = Outline::of(alloc, declarations_of(typed))?;
    words_of_member(alloc, &outline, id)
}

fn words_of_member<'a>(
    alloc: Global,
    outline: &Outline<'a>,
    id: MemberId,
) -> Result<Option<Vec<usize>>, NoMemory>
    ensures { IfOk result (λ found. option_map (λ words. words.items) found ≡ option_map (λ (found : Inner × Member). map (words_of_formal outline.now) found.1.formals) (member_of_id outline.now id)) }
{
    match formals_numbered(outline.classes(), id.0) {
        Some(formals) => Ok(Some(words_of_all(alloc, outline, formals)?)),
        None => Ok(None),
    }
}

fn words_of_all<'a>(
    alloc: Global,
    outline: &Outline<'a>,
    formals: &'a [Formal],
) -> Result<Vec<usize>, NoMemory>
    ensures { IfOk result (λ words. words.items ≡ map (words_of_formal outline.now) formals.now) }
{
    let mut words = Vec::new(alloc);
    for formal in formals {
        words.push(words_of(outline.layout(), &formal.type_name, None))?;
    }
    Ok(words)
}

/// The formals of a member, among some classes.
#[tactic(auto, using(crate::proofs::Numbers::in_class, crate::proofs::Numbers::in_others))]
fn formals_numbered<'a>(classes: &[Class<'a>], id: u32) -> Option<&'a [Formal]>
    ensures { option_map (λ formals. formals.now) result ≡ option_map (λ (found : Inner × Member). found.1.formals) (member_of_classes id (map class_seen classes.now)) }
{
    for class in classes {
        if let Some(formals) = formals_among(*class, id) {
            return Some(formals);
        }
    }
    None
}

/// The formals of a member, among the items of a class.
fn formals_among<'a>(class: Class<'a>, id: u32) -> Option<&'a [Formal]>
    ensures { option_map (λ formals. formals.now) result ≡ option_map (λ (m : Member). m.formals) (member_numbered id (class_seen class.entry).members) }
{
    let mut at = class.first;
    for item in class.items {
        if let Some(formals) = formals_if_member(item) {
            if at == id {
                return Some(formals);
            }
            at += 1;
        }
    }
    None
}

#[tactic(auto, using(mpl_layout::proofs::ClassesInOrder::as_many_members))]
fn formals_if_member<'a>(item: &'a Item) -> Option<&'a [Formal]>
    ensures counted { (others : List Item) → length (members_from 0 (item.now ∷ others)) ≡ members_on (option_map (λ formals. true) result) (length (members_from 0 others)) }
    ensures found { (at id : ℕ) (others : List Item) → option_map (λ (m : Member). m.formals) (member_numbered id (members_from at (item.now ∷ others))) ≡ found_on (option_map (λ formals. formals.now) result) (nat_eq at id) (option_map (λ (m : Member). m.formals) (member_numbered id (members_from (at + 1) others))) (option_map (λ (m : Member). m.formals) (member_numbered id (members_from at others))) }
{
    match item {
        Item::Member(_, _, _, formals, _) => Some(formals_of(formals)),
        Item::OfField(..) => None,
        Item::Select(..) => None,
        Item::Public(..) => None,
        Item::Private(..) => None,
        Item::Empty(..) => None,
    }
}

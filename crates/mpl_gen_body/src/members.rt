//! The members of an image.

ghost use Rattle.std.specs.Prelude.{◌≡◌, ℕ, List, [], ◌∷◌, ◌++◌, map, IfOk, OnOk};
ghost use Rattle.mpl_ast.specs.declared.class.Item.{Item};
ghost use Rattle.mpl_mean.specs.Laws.Sizes.{Every};
ghost use Rattle.mpl_mean.specs.Meaning.Layout.{Member, classes_of, members_from};
ghost use Rattle.mpl_gen_code.specs.ProgramImage.{member_image, members_image, result_image};
ghost use Rattle.mpl_gen_bounds.specs.ImageFits.{MemberFits};
ghost use Rattle.mpl_gen_body.specs.Internal.Fitting.{ItemFits};
ghost use Rattle.mpl_gen_body.specs.Internal.Surroundings.{Sees};
ghost use Rattle.mpl_layout.specs.Bounds.{StateFits};
ghost use Rattle.mpl_layout.specs.SeenClasses.{class_seen};
ghost use Rattle.mpl_gen_scope.specs.SeenMarks.{marked};

use crate::bodies::{Object, code_of_body, formals_of};
use mdf_code::{RawMember, RawMembers};
use mpl_ast::class::{Formal, Item, ResultType};
use mpl_ast::statement::Block;
use mpl_gen_scope::marks::Marks;
use mpl_gen_scope::outline::Outline;
use mpl_gen_scope::scope::Finish;
use mpl_layout::class::Class;
use mpl_layout::parts::parts_of_items;
use mpl_layout::words::words_of_one;
use mpl_value::NoMemory;
use std::alloc::Global;

pub fn members_of<'o, 'a>(
    alloc: Global,
    outline: &'o Outline<'a>,
    marks: Marks<'o>,
) -> Result<RawMembers, NoMemory>
    requires { Every MemberFits (members_image outline.now (marked marks.nodes.now) (classes_of outline.now)) }
    ensures { IfOk result (λ members. members ≡ members_image outline.now (marked marks.entry.nodes.now) (classes_of outline.now)) }
{
    let mut members = RawMembers::new(alloc);
    for class in outline.classes() {
        add_class(alloc, outline, marks, &mut members, *class)?;
    }
    Ok(members)
}

/// The members of a class see what its objects have.
#[tactic(auto, using(crate::proofs::Seeing::sees_nothing, crate::proofs::Seeing::sees_object, crate::proofs::Fitting::items_fit))]
fn add_class<'o, 'a>(
    alloc: Global,
    outline: &'o Outline<'a>,
    marks: Marks<'o>,
    members: &mut RawMembers,
    class: Class<'a>,
) -> Result<(), NoMemory>
    requires state { StateFits outline.now (class_seen class) }
    requires fits { Every MemberFits (map (member_image outline.now (marked marks.nodes.now) (class_seen class)) (class_seen class).members) }
    ensures { OnOk result (members.new ≡ members.old ++ map (member_image outline.now (marked marks.entry.nodes.now) (class_seen class.entry)) (class_seen class.entry).members) }
{
    if class.is_regular {
        let object = Object {
            class: None,
            parts: &[],
        };
        return add_members(alloc, outline, marks, members, class, object);
    }
    let parts = parts_of_items(alloc, outline.layout(), class.items)?;
    let object = Object {
        class: Some(class),
        parts: parts.as_slice(),
    };
    add_members(alloc, outline, marks, members, class, object)
}

fn add_members<'p, 'a>(
    alloc: Global,
    outline: &'p Outline<'a>,
    marks: Marks<'p>,
    members: &mut RawMembers,
    class: Class<'a>,
    object: Object<'p, 'a>,
) -> Result<(), NoMemory>
    requires sees { Sees outline.now object (class_seen class) }
    requires fits { Every (ItemFits outline.now (marked marks.nodes.now) (class_seen class)) class.items.now }
    ensures { OnOk result (members.new ≡ members.old ++ map (member_image outline.now (marked marks.entry.nodes.now) (class_seen class.entry)) (class_seen class.entry).members) }
{
    for item in class.items {
        add_member(alloc, outline, marks, members, class, object, item)?;
    }
    Ok(())
}

fn add_member<'p, 'a>(
    alloc: Global,
    outline: &'p Outline<'a>,
    marks: Marks<'p>,
    members: &mut RawMembers,
    class: Class<'a>,
    object: Object<'p, 'a>,
    item: &'a Item,
) -> Result<(), NoMemory>
    requires sees { Sees outline.now object (class_seen class) }
    requires fits { ItemFits outline.now (marked marks.nodes.now) (class_seen class) item.now }
    ensures { OnOk result ((id : ℕ) (others : List Item) →
        members.new ++ map (member_image outline.now (marked marks.entry.nodes.now) (class_seen class.entry)) (members_from id others)
        ≡ members.old ++ map (member_image outline.now (marked marks.entry.nodes.now) (class_seen class.entry)) (members_from id (item.now ∷ others))) }
{
    match item {
        Item::Member(_, result_type, _, formals, block) => {
            let formals = formals_of(formals);
            members.push(member_of(
                alloc,
                outline,
                marks,
                class,
                object,
                result_type,
                formals,
                block,
            )?)
        }
        Item::OfField(..) => Ok(()),
        Item::Select(..) => Ok(()),
        Item::Public(..) => Ok(()),
        Item::Private(..) => Ok(()),
        Item::Empty(..) => Ok(()),
    }
}

fn member_of<'p, 'a>(
    alloc: Global,
    outline: &'p Outline<'a>,
    marks: Marks<'p>,
    class: Class<'a>,
    object: Object<'p, 'a>,
    result_type: &'a ResultType,
    formals: &'a [Formal],
    block: &'a Block,
) -> Result<RawMember, NoMemory>
    requires sees { Sees outline.now object (class_seen class) }
    requires fits { MemberFits (member_image outline.now (marked marks.nodes.now) (class_seen class) (record { id = 0; name = []; result = result_type.now; formals = formals.now; body = block.now })) }
    ensures { IfOk result (λ member. member ≡ member_image outline.now (marked marks.entry.nodes.now) (class_seen class.entry) (record { id = 0; name = []; result = result_type.now; formals = formals.now; body = block.now })) }
{
    let finish = Finish::OfBody(block.mark_line);
    let list = block.statements.as_slice();
    let body = code_of_body(alloc, outline, marks, finish, object, formals, list)?;
    Ok(RawMember {
        class: class.number,
        formals: formals.len() as u32,
        result: result_of(outline, result_type),
        body,
    })
}

/// The words of the result, if there is one.
fn result_of<'a>(outline: &Outline<'a>, result_type: &'a ResultType) -> Option<u32>
    ensures { result ≡ result_image outline.now result_type.now }
{
    match result_type {
        ResultType::Void(_) => None,
        ResultType::Typed(_, type_name) => Some(words_of_one(outline.layout(), type_name) as u32),
    }
}

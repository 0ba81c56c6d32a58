//! The image of a program.

ghost use Rattle.std.specs.Prelude.{◌≡◌, ℕ, true, IfOk};
ghost use Rattle.std.specs.FinMap.{FinMap};
ghost use Rattle.std.specs.List.Sorted.{IsNonDecreasing};
ghost use Rattle.std.specs.Ordering.{nat_cmp};
ghost use Rattle.mpl_value.specs.declared.body.BodyStart.{BodyStart};
ghost use Rattle.mpl_value.specs.declared.known.Known.{Known};
ghost use Rattle.mpl_mean.specs.Laws.Sizes.{RepliesFit, StartFits};
ghost use Rattle.mpl_mean.specs.Meaning.BodyMeaning.{yield_of};
ghost use Rattle.mpl_mean.specs.TypeRules.Rules.{is_typed};
ghost use Rattle.mdf_code.specs.Yields.{YieldsUnstrayed};
ghost use Rattle.mpl_gen_code.specs.ProgramImage.{image_of};
ghost use Rattle.mpl_gen_bounds.specs.ImageFits.{ImageFits};
ghost use Rattle.mpl_layout.specs.Bounds.{Bounded};
ghost use Rattle.mpl_gen_scope.specs.SeenMarks.{marked};
ghost use Rattle.mpl_gen_body.specs.Covers.{Covers};

use crate::bodies::main_of;
use crate::classes::classes_of;
use crate::entries::entries_of;
use crate::functions::functions_of;
use crate::members::members_of;
use mdf_code::{Image, RawImage};
use mpl_ast::program::Program;
use mpl_depend::PendMap;
use mpl_gen_scope::marks::Marks;
use mpl_gen_scope::outline::Outline;
use mpl_mean::Typed;
use mpl_value::NoMemory;
use std::alloc::Global;

/// The code of a program, in which a variable is needed before each use that the map has. Where the map has all uses that
/// may find a pending or a trapped result, the code of each body yields what the body means, its turns included, from a
/// start that fits, with replies that fit and any number of turns. More uses in the map change nothing of that.
pub fn compile(alloc: Global, typed: &Typed, pend: &PendMap) -> Result<Image, NoMemory>
    ensures image { IfOk result (λ image. image ≡ image_of typed.now (marked pend.now)) }
    ensures yields { IfOk result (λ image. Covers pend.now typed.now → (start : BodyStart) (replies : FinMap nat_cmp Known) (turns : ℕ) →
        StartFits typed.now start → RepliesFit typed.now start replies turns → YieldsUnstrayed image start replies turns (yield_of typed.now start replies turns)) }
{
    let image = image_with(alloc, typed, pend)?;
    Ok(image)
}

fn image_with(alloc: Global, typed: &Typed, pend: &PendMap) -> Result<Image, NoMemory>
    ensures image { IfOk result (λ image. image ≡ image_of typed.now (marked pend.now)) }
    ensures typed { IfOk result (λ image. is_typed typed.now ≡ true) }
{
    let parts = parts_of(alloc, typed.program(), pend.nodes())?;
    Ok(Image::of(parts))
}

fn parts_of(alloc: Global, program: &Program, marks: &[u32]) -> Result<RawImage, NoMemory>
    requires rising { IsNonDecreasing marks.now }
    requires bounded { Bounded program.now.declarations }
    requires fits { ImageFits (image_of program.now (marked marks.now)) }
    ensures { IfOk result (λ parts. parts ≡ image_of program.now (marked marks.now)) }
{
    let outline = Outline::of(alloc, program.declarations.as_slice())?;
    let marks = Marks::of(marks);
    let functions = functions_of(alloc, &outline, marks)?;
    let classes = classes_of(alloc, &outline)?;
    let members = members_of(alloc, &outline, marks)?;
    let entries = entries_of(alloc, &outline)?;
    let main = main_of(alloc, &outline, marks)?;
    Ok(RawImage {
        functions,
        classes,
        members,
        entries,
        main,
    })
}

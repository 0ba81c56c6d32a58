//! The classes of an image.

ghost use Rattle.std.specs.Prelude.{◌≡◌, ◌≤◌, List, ◌∷◌, ◌++◌, map, option_map, IfOk};
ghost use Rattle.mpl_mean.specs.Laws.Sizes.{words_of_object};
ghost use Rattle.mpl_mean.specs.Meaning.Layout.{classes_of, words_of_parts};
ghost use Rattle.mpl_gen_code.specs.ProgramImage.{class_image, classes_image, has_select, select_of, selects_of};
ghost use Rattle.mpl_layout.specs.Bounds.{StateFits};
ghost use Rattle.mpl_gen_scope.specs.SeenSelects.{select_seen};
ghost use Rattle.mpl_layout.specs.SeenClasses.{class_seen};
ghost use Rattle.mpl_layout.specs.SeenParts.{part_seen};

use mdf_code::{RawClass, RawClasses};
use mpl_ast::class::{Entry, Item};
use mpl_gen_scope::outline::Outline;
use mpl_layout::class::Class;
use mpl_layout::part::Part;
use mpl_layout::parts::parts_of_items;
use mpl_value::NoMemory;
use std::alloc::Global;

pub fn classes_of<'o, 'a>(alloc: Global, outline: &'o Outline<'a>) -> Result<RawClasses, NoMemory>
    ensures { IfOk result (λ classes. classes ≡ classes_image outline.now (classes_of outline.now) (selects_of outline.now)) }
{
    let mut classes = RawClasses::new(alloc);
    for class in outline.classes() {
        classes.push(class_of(alloc, outline, *class)?)?;
    }
    Ok(classes)
}

fn class_of<'o, 'a>(
    alloc: Global,
    outline: &'o Outline<'a>,
    class: Class<'a>,
) -> Result<RawClass, NoMemory>
    requires { StateFits outline.now (class_seen class) }
    ensures { IfOk result (λ raw. raw ≡ class_image outline.now (class_seen class.entry) (has_select (select_seen class.entry))) }
{
    let parts = parts_of_items(alloc, outline.layout(), class.items)?;
    Ok(RawClass {
        regular: class.is_regular,
        words: words_of_parts(parts.as_slice()) as u32,
        selects: has_select(class.items),
    })
}

fn words_of_parts(parts: &[Part]) -> usize
    requires { words_of_parts (map part_seen parts.now) ≤ 256 }
    ensures { result ≡ words_of_parts (map part_seen parts.now) }
{
    let mut words = 0;
    for part in parts {
        words += part.words;
    }
    words
}

fn has_select(items: &[Item]) -> bool
    ensures { result ≡ has_select (select_of items.now) }
{
    match select_of(items) {
        Some(_) => true,
        None => false,
    }
}

/// The entries of a class's `select`, if it has one.
pub fn select_of<'a>(items: &'a [Item]) -> Option<&'a [Entry]>
    ensures { option_map (λ entries. entries.now) result ≡ select_of items.now }
{
    for item in items {
        if let Item::Select(_, _, entries) = item {
            return Some(entries.as_slice());
        }
    }
    None
}

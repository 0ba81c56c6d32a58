ghost use Rattle.std.specs.Prelude.{◌≡◌, [], ◌∷◌, ◌++◌, List, drop, IfOk, OnOk};
ghost use Rattle.std.specs.Fmt.{signed_decimal};
ghost use Rattle.mpl_mean.specs.Meaning.StatementMeaning.{line_of};
ghost use Rattle.mpl_mean.specs.Meaning.Values.{value_text};
ghost use Rattle.mpl_body_code.specs.Machine.{Item};
ghost use Rattle.mpl_body_code.specs.Steps.{top_of, values_of};
ghost use Rattle.mpl_body_run.specs.Printing.{rest_of, separated};
ghost use Rattle.mpl_body_run.specs.SeenItems.{item_seen};

use crate::perform::first_word;
use crate::stack::{Holds, Stack};
use mpl_value::{Bytes, NoMemory};
use std::alloc::Global;

/// So many items from the top, the lowest of them on top.
#[tactic(auto, using(crate::proofs::TakenItems::one_taken, crate::proofs::TakenItems::none_left, crate::proofs::TakenItems::none_dropped))]
pub fn take_items(alloc: Global, stack: &mut Stack, count: usize) -> Result<Stack, NoMemory>
    ensures taken { IfOk result (λ items. items ≡ top_of count stack.old) }
    ensures below { OnOk result (stack.new ≡ drop count stack.old) }
{
    let mut items = Stack::new(alloc);
    let mut left = count;
    while left > 0 {
        left -= 1;
        if let Some(item) = stack.pop() {
            items.push(item)?;
        }
    }
    Ok(items)
}

/// Appends the line of the values among some items.
pub fn print_items(alloc: Global, items: Stack, lines: &mut Bytes) -> Result<(), NoMemory>
    ensures { OnOk result (lines.new ≡ lines.old ++ line_of (values_of items)) }
{
    let mut items = items;
    let mut is_first = true;
    while let Some(item) = items.pop() {
        is_first = print_item(alloc, is_first, item, lines)?;
    }
    lines.push(b'\n')
}

/// Appends the text of a value, and says whether none is there yet.
fn print_item(
    alloc: Global,
    is_first: bool,
    item: Holds,
    lines: &mut Bytes,
) -> Result<bool, NoMemory>
    ensures { IfOk result (λ still. (below : List Item) → lines.new ++ rest_of still (values_of below) ≡ lines.old ++ rest_of is_first (values_of (item_seen item ∷ below))) }
{
    match item {
        Holds::Word(word, is_bool) => {
            print_word(alloc, is_first, word, is_bool, lines)?;
            Ok(false)
        }
        Holds::Words(words, is_bool) => {
            let word = first_word(words.as_ref());
            print_word(alloc, is_first, word, is_bool, lines)?;
            Ok(false)
        }
        Holds::Trapped(_) => Ok(is_first),
        Holds::Unknown => Ok(is_first),
    }
}

/// Appends the text of a word, behind a space where it isn't the first.
fn print_word(
    alloc: Global,
    is_first: bool,
    word: i64,
    is_bool: bool,
    lines: &mut Bytes,
) -> Result<(), NoMemory>
    ensures { OnOk result (lines.new ≡ lines.old ++ separated is_first (value_text (record { words = word ∷ []; is_bool = is_bool }))) }
{
    if !is_first {
        lines.push(b' ')?;
    }
    if !is_bool {
        return print_number(alloc, word, lines);
    }
    if word != 0 {
        lines.extend(b"true".as_slice())
    } else {
        lines.extend(b"false".as_slice())
    }
}

fn print_number(alloc: Global, number: i64, lines: &mut Bytes) -> Result<(), NoMemory>
    ensures { OnOk result (lines.new ≡ lines.old ++ signed_decimal number) }
{
    let text = number.to_string(alloc)?;
    lines.extend(text.as_bytes())
}

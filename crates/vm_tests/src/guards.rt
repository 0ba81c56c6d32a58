ghost use Rattle.std.specs.Prelude.{◌∷◌, [], Some};
ghost use Rattle.std.specs.Bool.{OnTrue};
ghost use Rattle.mdf_vm.specs.GuardFormals.{MemberHas};

use crate::images::{Body, Shape, image};
use crate::rows::Row;
use mdf_code::{Image, RawMember};
use mdf_vm::{Formals, holds};
use mpl_value::Words;
use std::alloc::Global;

/// One formal of one word.
#[derive(Drop)]
struct OneWord {
    word: i64,
}

impl Formals for OneWord {
    ghost words = { λ o. (o.word ∷ []) ∷ [] };

    fn word(&self, _formal: u32, _at: u32) -> i64 {
        self.word
    }
}

/// Whether a member has one formal, of one word.
fn has_one_word(member: &RawMember, formals: &OneWord) -> bool
    ensures { OnTrue result (MemberHas ((formals.now.word ∷ []) ∷ []) (Some member.now)) }
{
    match member.body.vars.as_slice() {
        [] => false,
        [first, ..] => member.formals == 1 && *first == 1,
    }
}

/// Whether an entry's guard holds, where its member has one formal of one word.
fn decides(image: &Image, entry: u32, formals: &OneWord, state: &Words) -> Option<bool> {
    let raw = image.raw();
    let case = raw.entries.get(entry as usize)?;
    let member = raw.members.get(case.member.0 as usize)?;
    if !has_one_word(member, formals) {
        return None;
    }
    Some(holds(image, entry, formals, state))
}

/// int n; void f(int x) { } guard (n < 10 / x) accept f;
const GUARDED: Shape = Shape {
    words: 1,
    members: &[Body {
        formals: 1,
        gives: false,
        variables: 1,
        rows: &[Row::End(1)],
    }],
    guard: Some(&[
        Row::Fetch(0),
        Row::Push(10),
        Row::Load(0),
        Row::Div,
        Row::Less,
    ]),
    variables: 0,
    main: &[Row::End(1)],
};

/// Whether the guard holds where `n` is 1 and `x` is that word.
fn holds_with(alloc: Global, word: i64) -> Option<bool> {
    let image = image(alloc, &GUARDED)?;
    let state = Words::from_slice(alloc, &[1]).ok()?;
    decides(&image, 0, &OneWord { word }, &state)
}

#[test]
fn guard_decides(rt: HostRuntime) {
    for (word, holds) in [(4, true), (10, false), (0, false)] {
        assert_eq!(rt; holds_with(rt.alloc(), word), Some(holds));
    }
}

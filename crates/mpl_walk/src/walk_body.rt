ghost use Rattle.std.specs.Prelude.{◌≡◌, ◌≤◌, ◌+◌, ◌<◌, ◌^◌, ℕ, true, Some, slice_get, IfOk};
ghost use Rattle.mpl_mean.specs.Laws.Sizes.{StartFits};
ghost use Rattle.mpl_mean.specs.Limits.{greatest_budget};
ghost use Rattle.mpl_mean.specs.Meaning.BodyMeaning.{yield_of};
ghost use Rattle.mpl_mean.specs.TypeRules.Rules.{is_typed};
ghost use Rattle.mpl_value.specs.declared.body.BodyEnd.TheVariants as ends;
ghost use Rattle.mpl_body_code.specs.Images as images;
ghost use Rattle.mpl_body_code.specs.Images.{main_machine, starts};
ghost use Rattle.mpl_body_code.specs.SeenImage.{image_seen};
ghost use Rattle.mpl_body_image.specs.Laid.{laid, main_entry};
ghost use Rattle.mpl_body_run.specs.SeenSetting.{setting_seen};
ghost use Rattle.mpl_body_run.specs.Splitting.{split_by};

use mpl_body_code::{Finish, Image, MemberCode};
use mpl_body_image::{formal_words, image_of};
use mpl_body_run::{Setting, Slots, machine_of, run, slots_of};
use mpl_mean::{Typed, allowances_are_exact};
use mpl_value::{BodyStart, MemberId, NoMemory, Replies, Yield};
use std::alloc::Global;

/// What a body does from a start, under these replies to its calls, with a budget of turns.
pub fn walk(
    alloc: Global,
    typed: &Typed,
    start: &BodyStart,
    replies: &Replies,
    budget: u64,
) -> Result<Yield, NoMemory>
    requires fits { StartFits typed.now start.now }
    requires budget { budget ≤ greatest_budget }
    ensures meaning { IfOk result (λ y. y ≡ yield_of typed.now start.now replies.now budget) }
    ensures spent { IfOk result (λ y. y.end ≡ ends.Spent → y.turns ≡ budget + 1) }
{
    allowances_are_exact();
    walk_body(alloc, typed, start, replies, budget)
}

/// The code of the program, from the body's start to its yield.
fn walk_body(
    alloc: Global,
    typed: &Typed,
    start: &BodyStart,
    replies: &Replies,
    budget: u64,
) -> Result<Yield, NoMemory>
    requires fits { StartFits typed.now start.now }
    requires budget { budget ≤ greatest_budget }
    ensures { IfOk result (λ y. y ≡ yield_of typed.now start.now replies.now budget) }
{
    let codes = image_of(alloc, typed)?;
    let setting = Setting {
        alloc,
        image: &codes.image,
        replies,
        budget,
    };
    walk_in(&setting, typed, start, codes.main)
}

/// No type rule fails in it.
fn keeps_rules(typed: &Typed)
    ensures { is_typed typed.now ≡ true }
{
    let _program = typed.program();
}

/// `main`, or the member of the start.
fn walk_in(
    setting: &Setting,
    typed: &Typed,
    start: &BodyStart,
    main: usize,
) -> Result<Yield, NoMemory>
    requires image { image_seen setting.now.image.now ≡ laid typed.now.declarations }
    requires main { main ≡ main_entry typed.now.declarations }
    requires fits { StartFits typed.now start.now }
    requires budget { setting.now.budget ≤ greatest_budget }
    ensures { IfOk result (λ y. y ≡ yield_of typed.now start.now setting.now.replies.now setting.now.budget) }
{
    keeps_rules(typed);
    match start.member {
        None => walk_main(setting, start, main),
        Some(id) => match formal_words(setting.alloc, typed, id)? {
            Some(counts) => match member_code(setting.image, id) {
                Some(code) => walk_member(setting, start, code, counts.as_slice()),
                None => unreachable!(),
            },
            None => unreachable!(),
        },
    }
}

fn member_code(image: &Image, id: MemberId) -> Option<MemberCode>
    ensures { result ≡ slice_get (image_seen image.now).members id.0 }
{
    image.members.get(id.0 as usize).copied()
}

/// `main`, which sees no object.
fn walk_main(setting: &Setting, start: &BodyStart, entry: usize) -> Result<Yield, NoMemory>
    requires budget { setting.now.budget ≤ greatest_budget }
    requires number { start.now.number < 2 ^ 31 }
    ensures { IfOk result (λ y. (steps : ℕ) × (starts steps (setting_seen setting.now) (main_machine start.now entry) ≡ Some y)) }
{
    let slots = Slots::new(setting.alloc);
    let machine = machine_of(setting.alloc, start, 0, entry, Finish::Main, slots)?;
    run(setting, machine)
}

fn object_of(start: &BodyStart) -> i64
    ensures { result ≡ start.now.object }
{
    start.object
}

/// A member, whose arguments are split into those of its formals.
fn walk_member(
    setting: &Setting,
    start: &BodyStart,
    code: MemberCode,
    counts: &[usize],
) -> Result<Yield, NoMemory>
    requires budget { setting.now.budget ≤ greatest_budget }
    requires number { start.now.number < 2 ^ 31 }
    ensures { IfOk result (λ y. (steps : ℕ) × (starts steps (setting_seen setting.now) (images.machine_of start.now code.finish code.entry (split_by counts.now start.now.args)) ≡ Some y)) }
{
    let object = object_of(start);
    let slots = slots_of(setting.alloc, counts, start.args.as_slice())?;
    let machine = machine_of(setting.alloc, start, object, code.entry, code.finish, slots)?;
    run(setting, machine)
}

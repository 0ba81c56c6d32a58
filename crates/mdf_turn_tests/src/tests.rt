ghost use Rattle.std.specs.Prelude.{◌≡◌, ◌+◌, true, false, [], Some};

use crate::{Tally, finish, visit, work};
use mdf_turn::{Entered, Pass, Turn};
use std::sync::Wait;
use std::test::Fail;
use std::thread;
use std::thread::{Threads, join};
use std::time::{Clock, Duration};

const TURNS: u64 = 10_000;

// Two workers side by side, whose passes are put together at the end.
fn two<R: Threads + Wait + Sync>(
    rt: &R,
    turn: &Turn<Tally>,
    a: Pass<Tally>,
    b: Pass<Tally>,
    workers: (u64, u64),
) -> Pass<Tally>
    requires turn { (a.turn ≡ turn.now.table) × (b.turn ≡ turn.now.table) }
    requires outside { (a.inside ≡ false) × (b.inside ≡ false) }
    requires nothing_held { (a.held ≡ []) × (b.held ≡ []) }
    ensures turn { result.turn ≡ turn.now.table }
    ensures outside { (result.inside ≡ false) × (result.held ≡ []) }
    ensures parts { result.parts ≡ a.parts + b.parts }
{
    let (first, second) = workers;
    let (a, b) = join(
        rt,
        || work(rt, turn, a, first, TURNS),
        || work(rt, turn, b, second, TURNS),
    );
    turn.join(a, b)
}

// Whether each of four workers has all its turns in the log, each once and in its order.
fn is_complete(tally: &Tally, turns: u64) -> bool {
    let mut next = [0u64; 4];
    for entry in tally.entries.as_slice() {
        let worker = (entry.worker % 4) as usize;
        if entry.number != next[worker] || entry.worker > 3 {
            return false;
        }
        if !entry.takes {
            next[worker] = next[worker].wrapping_add(1);
        }
    }
    next == [turns; 4]
}

#[test]
fn four_workers_keep_their_orders(rt: HostRuntime) -> Result<(), Fail> {
    let (turn, pass) = Turn::open(rt.alloc(), Tally::new(rt.alloc(), 7, 80_000)?, 4)?;
    let (pass, d) = turn.split(pass);
    let (pass, c) = turn.split(pass);
    let (a, b) = turn.split(pass);
    let (x, y) = join(
        &rt,
        || two(&rt, &turn, a, c, (0, 1)),
        || two(&rt, &turn, d, b, (2, 3)),
    );
    let tally = finish(turn, y, x);
    assert!(rt; tally.name == 7 && tally.entries.len() == 80_000 && is_complete(&tally, TURNS));
    Ok(())
}

// Keeps the turn for a while.
fn leave_late<R: Clock>(rt: &R, turn: &Turn<Tally>, entered: Entered<Tally>) -> Pass<Tally>
    requires turn { entered.pass.turn ≡ turn.now.table }
    requires inside { entered.pass.inside ≡ true }
    requires job { entered.pass.root ≡ Some entered.value.name }
    requires seen { entered.pass.seen ≡ entered.value.entries.items }
    requires nothing_held { entered.pass.held ≡ [] }
    ensures { result ≡ record entered.pass { inside = false } }
{
    let _ = thread::sleep(rt, Duration::from_millis(20));
    turn.leave(entered)
}

#[test]
fn one_waits_while_another_has_the_turn(rt: HostRuntime) -> Result<(), Fail> {
    let (turn, pass) = Turn::open(rt.alloc(), Tally::new(rt.alloc(), 7, 2)?, 2)?;
    let (a, b) = turn.split(pass);
    let entered = turn.enter(&rt, a);
    let (a, b) = join(
        &rt,
        || leave_late(&rt, &turn, entered),
        || visit(&rt, &turn, b, 1, 0),
    );
    assert!(rt; b.1);
    let tally = finish(turn, a, b.0);
    assert!(rt; tally.entries.len() == 2);
    Ok(())
}

#[test]
fn parts_come_together_in_any_shape(rt: HostRuntime) -> Result<(), Fail> {
    let (turn, pass) = Turn::open(rt.alloc(), Tally::new(rt.alloc(), 7, 6)?, 6)?;
    let (pass, a) = turn.split(pass);
    let a = work(&rt, &turn, a, 0, 1);
    let (pass, b) = turn.split(pass);
    let ab = turn.join(a, b);
    let (b, a) = turn.split(ab);
    let b = work(&rt, &turn, b, 1, 1);
    let (pass, c) = turn.split(pass);
    let pass = work(&rt, &turn, pass, 2, 1);
    let (pass, d) = turn.split(pass);
    let all = turn.join(turn.join(a, pass), turn.join(turn.join(d, b), c));
    let tally = turn.close(all);
    assert!(rt; tally.entries.len() == 6);
    Ok(())
}

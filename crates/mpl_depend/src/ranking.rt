//! Which values something comes to, from a call's result along the edges. A value has a rank by the order in which it is found, and 0
//! if nothing comes to it.

ghost use Rattle.std.specs.Prelude.{◌≡◌, ◌<◌, ◌≤◌, ℕ, length, IfOk, OnOk, MatchOption};
ghost use Rattle.std.specs.List.{Contains};
ghost use Rattle.mpl_depend.specs.Internal.Ranks.{IsClosed, value_at};
ghost use Rattle.mpl_depend.specs.Internal.Reached.{Followed, IsOpen, Reached, Reaching};

use crate::values::Edge;
use mpl_value::NoMemory;
use std::alloc::Global;

/// The ranks of the values below a number.
pub fn ranks_of(alloc: Global, count: usize, edges: &[Edge]) -> Result<Vec<usize>, NoMemory>
    requires some { 1 < count }
    requires into { (edge : Edge) → Contains edges.now edge → edge.into < count }
    ensures { IfOk result (λ ranks. Reached edges.now ranks.items) }
{
    let mut ranks = vec![in alloc; 0usize; count]?;
    rank(alloc, edges, ranks.as_mut_slice())?;
    Ok(ranks)
}

fn rank(alloc: Global, edges: &[Edge], ranks: &mut [usize]) -> Result<(), NoMemory>
    requires some { 1 < length ranks.old }
    requires none { (value : ℕ) → value_at ranks.old value ≡ 0 }
    requires into { (edge : Edge) → Contains edges.now edge → edge.into < length ranks.old }
    ensures { OnOk result (Reached edges.now ranks.new) }
{
    let mut found = Vec::new(alloc);
    found.push(1)?;
    ranks[1] = 1;
    search(alloc, edges, ranks, &mut found)?;
    complete(edges, ranks, &mut found)?;
    Ok(())
}

/// The number at a place, and 0 past the end.
pub fn entry(list: &[usize], place: usize) -> usize
    ensures { result ≡ value_at list.now place }
{
    match list.get(place) {
        Some(number) => *number,
        None => 0,
    }
}

/// What comes to the start of an edge comes to its end.
fn follow(edge: Edge, ranks: &mut [usize], found: &mut Vec<usize>) -> Result<(), NoMemory>
    ensures { OnOk result (Followed edge (length found.old.items) (length found.new.items) ranks.old ranks.new) }
{
    if edge.into < ranks.len() && ranks[edge.into] == 0 && entry(&*ranks, edge.from) > 0 {
        found.push(edge.into)?;
        ranks[edge.into] = found.as_slice().len();
    }
    Ok(())
}

/// Follows the edges from each value that is found, in the order in which they are found.
fn search(
    alloc: Global,
    edges: &[Edge],
    ranks: &mut [usize],
    found: &mut Vec<usize>,
) -> Result<(), NoMemory>
    requires { Reaching edges.now (length found.old.items) ranks.old }
    ensures sized { OnOk result (length ranks.new ≡ length ranks.old) }
    ensures reaching { OnOk result (Reaching edges.now (length found.new.items) ranks.new) }
{
    let mut first = vec![in alloc; 0usize; ranks.len()]?;
    let next = chain(alloc, edges, first.as_mut_slice())?;
    for place in 0..ranks.len() {
        if place < found.as_slice().len() {
            let value = found.as_slice()[place];
            follow_from(
                edges,
                entry(first.as_slice(), value),
                next.as_slice(),
                ranks,
                found,
            )?;
        }
    }
    Ok(())
}

/// Chains the edges that begin at one value: the number of the newest, from 1 on, and behind each edge that of the next older one.
fn chain(alloc: Global, edges: &[Edge], first: &mut [usize]) -> Result<Vec<usize>, NoMemory> {
    let mut next = Vec::new(alloc);
    for edge in edges {
        if edge.from < first.len() {
            next.push(first[edge.from])?;
            first[edge.from] = next.as_slice().len();
        } else {
            next.push(0)?;
        }
    }
    Ok(next)
}

/// Follows the edges of a chain that begins with the edge of this number.
fn follow_from(
    edges: &[Edge],
    number: usize,
    next: &[usize],
    ranks: &mut [usize],
    found: &mut Vec<usize>,
) -> Result<(), NoMemory>
    requires { Reaching edges.now (length found.old.items) ranks.old }
    ensures sized { OnOk result (length ranks.new ≡ length ranks.old) }
    ensures reaching { OnOk result (Reaching edges.now (length found.new.items) ranks.new) }
{
    let mut left = number;
    while left > 0 && left <= edges.len() {
        let place = left - 1;
        follow(edges[place], ranks, found)?;
        left = least(entry(next, place), place);
    }
    Ok(())
}

fn least(a: usize, b: usize) -> usize
    ensures { result ≤ b }
{
    if a < b { a } else { b }
}

/// Follows each edge that is still open. The search leaves none, which this makes sure of.
fn complete(edges: &[Edge], ranks: &mut [usize], found: &mut Vec<usize>) -> Result<(), NoMemory>
    requires into { (edge : Edge) → Contains edges.now edge → edge.into < length ranks.old }
    requires reaching { Reaching edges.now (length found.old.items) ranks.old }
    ensures { OnOk result (Reached edges.now ranks.new) }
{
    let mut next = open_edge(edges, &*ranks);
    while let Some(edge) = next {
        follow(edge, ranks, found)?;
        next = open_edge(edges, &*ranks);
    }
    Ok(())
}

/// The first edge that is open.
fn open_edge(edges: &[Edge], ranks: &[usize]) -> Option<Edge>
    ensures { MatchOption result (IsClosed (value_at ranks.now) edges.now) (λ edge. Contains edges.now edge × IsOpen ranks.now edge) }
{
    for edge in edges {
        if entry(ranks, edge.from) > 0 && entry(ranks, edge.into) == 0 {
            return Some(*edge);
        }
    }
    None
}

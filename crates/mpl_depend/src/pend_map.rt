ghost use Rattle.std.specs.Prelude.{◌≡◌, ◌++◌, ℕ, [], true, flat_map, IfOk};
ghost use Rattle.std.specs.List.{Contains};
ghost use Rattle.std.specs.List.Sorted.{IsStrictlyIncreasing};
ghost use Rattle.mpl_depend.specs.Internal.Bodies.{Adds, class_row, function_row};
ghost use Rattle.mpl_depend.specs.Marks.{AreMarks};

use crate::bodies::{mark_classes, mark_functions};
use crate::known::Known;
use mpl_ast::program::Declaration;
use mpl_mean::Typed;
use mpl_value::NoMemory;
use std::alloc::Global;
use std::marker::Model;

/// The uses that may find a pending or a trapped result, by the numbers of their nodes.
#[derive(Drop)]
pub struct PendMap {
    nodes: Vec<u32>,
}

impl Model for PendMap {
    ghost use Rattle.std.specs.Prelude.{List, ℕ};
    ghost use Rattle.std.specs.List.Sorted.{IsStrictlyIncreasing};

    ghost Value = { List ℕ };

    ghost view = { λ m. m.nodes.items };

    ghost invariant = { λ m. IsStrictlyIncreasing m.nodes.items };
}

impl PendMap {
    /// Marks in whatever order, each maybe many times.
    fn of(marks: Vec<u32>) -> Result<PendMap, NoMemory>
        ensures rising { IfOk result (λ map. IsStrictlyIncreasing map) }
        ensures sound { IfOk result (λ map. (node : ℕ) → Contains map node → Contains marks.items node) }
        ensures complete { IfOk result (λ map. (node : ℕ) → Contains marks.items node → Contains map node) }
    {
        let mut nodes = marks;
        nodes.sort()?;
        nodes.dedup();
        Ok(PendMap { nodes })
    }

    pub fn has(&self, node: u32) -> bool
        ensures sound { result ≡ true → Contains self.now node }
        ensures complete { Contains self.now node → result ≡ true }
    {
        self.nodes.as_slice().binary_search(&node).is_ok()
    }

    pub fn nodes(&self) -> &[u32]
        ensures same { result.now ≡ self.now }
        ensures rising { IsStrictlyIncreasing result.now }
    {
        self.nodes.as_slice()
    }
}

/// The uses of a program that may find a pending or a trapped result.
pub fn pending(alloc: Global, typed: &Typed) -> Result<PendMap, NoMemory>
    ensures { IfOk result (λ map. AreMarks map typed.now) }
{
    let declarations = typed.program().declarations.as_slice();
    let known = Known::of(alloc, declarations)?;
    let marks = marks_of(alloc, &known, declarations)?;
    let map = PendMap::of(marks)?;
    Ok(map)
}

/// The marks of the functions, and then of the members.
#[tactic(auto, using(crate::proofs::Marking::adds_both))]
fn marks_of<'o, 'a>(
    alloc: Global,
    known: &'o Known<'a>,
    declarations: &'a [Declaration],
) -> Result<Vec<u32>, NoMemory>
    ensures { IfOk result (λ marks. Adds (flat_map (function_row known.now) declarations.now ++ flat_map (class_row known.now) declarations.now) [] marks.items) }
{
    let mut marks = Vec::new(alloc);
    mark_functions(alloc, &*known, &*declarations, &mut marks)?;
    mark_classes(alloc, &*known, &*declarations, &mut marks)?;
    Ok(marks)
}

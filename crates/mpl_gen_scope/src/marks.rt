//! The uses before which a variable is needed.

ghost use Rattle.std.specs.Prelude.{◌≡◌};
ghost use Rattle.std.specs.List.Sorted.{IsNonDecreasing};
ghost use Rattle.mpl_gen_scope.specs.SeenMarks.{marked};

/// The numbers of the nodes of such uses, which never fall.
#[derive(Clone, Copy)]
pub struct Marks<'m> {
    pub nodes: &'m [u32],
    ghost rising: { IsNonDecreasing nodes.now },
}

impl<'m> Marks<'m> {
    pub fn of(nodes: &'m [u32]) -> Marks<'m>
        requires { IsNonDecreasing nodes.now }
        ensures { result.nodes.now ≡ nodes.now }
    {
        Marks { nodes }
    }

    #[tactic(auto, using(crate::proofs::Marked::is_marked))]
    pub fn has(self, node: u32) -> bool
        ensures { result ≡ marked self.entry.nodes.now node }
    {
        self.nodes.binary_search(&node).is_ok()
    }
}

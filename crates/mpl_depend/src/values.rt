//! What the walk along the ways through a body finds: which values come to which, and the values that uses have.
//! Value 0 is known, value 1 is the result of a call, and the others are made where ways meet.

ghost use Rattle.std.specs.Prelude.{◌≡◌, ◌+◌, ◌++◌, ◌∷◌, [], OnOk, IfOk};

use mpl_value::NoMemory;

/// What comes to a value comes to another one.
#[derive(Clone, Copy)]
pub struct Edge {
    pub from: usize,
    pub into: usize,
}

/// A use, by the number of its node, and the value that its variable has there.
#[derive(Clone, Copy)]
pub struct Use {
    pub node: u32,
    pub value: usize,
}

#[derive(Drop)]
pub struct Values {
    /// One above those that are made.
    pub count: usize,
    pub edges: Vec<Edge>,
    pub uses: Vec<Use>,
}

impl Values {
    /// A value to which nothing comes yet.
    pub fn make(&mut self) -> Result<usize, NoMemory>
        ensures value { IfOk result (λ value. value ≡ self.old.count) }
        ensures count { OnOk result (self.new.count ≡ self.old.count + 1) }
        ensures edges { OnOk result (self.new.edges.items ≡ self.old.edges.items) }
        ensures uses { OnOk result (self.new.uses.items ≡ self.old.uses.items) }
    {
        let value = self.count;
        match value.checked_add(1) {
            Some(count) => {
                self.count = count;
                Ok(value)
            }
            None => Err(NoMemory),
        }
    }

    pub fn add(&mut self, from: usize, into: usize) -> Result<(), NoMemory>
        ensures edges { OnOk result (self.new.edges.items ≡ self.old.edges.items ++ record { from = from; into = into } ∷ []) }
        ensures count { OnOk result (self.new.count ≡ self.old.count) }
        ensures uses { OnOk result (self.new.uses.items ≡ self.old.uses.items) }
    {
        self.edges.push(Edge { from, into })?;
        Ok(())
    }
}

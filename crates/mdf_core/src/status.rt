/// Whether a machine goes on.
#[derive(Clone, Copy, Debug, PartialEq, Eq)]
pub enum MachineStatus {
    Going,
    /// It has ended, and nothing was left to happen.
    Rest,
    /// It has ended, since its turns are above its budget.
    Spent,
}

/// Where one stands in an expression.
#[derive(Clone, Copy, Debug, PartialEq, Eq)]
pub enum Position {
    /// Before an operand.
    Before,
    /// Behind an operand.
    Behind,
    /// In so many brackets, and one.
    Within(usize),
}

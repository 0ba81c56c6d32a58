use mpl_value::Known;

/// What happened to a call on a persistent object. A call is named by the number of the body that made it and its
/// own number among the calls of that body, from 1.
#[derive(Debug, Drop)]
pub enum Entry {
    /// It came to its object, with all its arguments known.
    Arrive { body: u32, call: u32 },
    /// Its object accepted it, as the body of this number.
    Accept { number: u32, body: u32, call: u32 },
    /// It was replied to.
    Reply { body: u32, call: u32, known: Known },
}

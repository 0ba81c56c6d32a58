//! The numbers that a program is given: reading an input, and the words that it consists of.
#![tactic(auto)]

mod fault;
mod laws;
mod reading;
mod words;
mod worked;

pub use fault::InputFault;
pub use laws::inputs_have_one_answer;
pub use reading::read_numbers;
pub use words::number_within;
pub use worked::inputs_have_their_numbers;

//! The tokens of a source.
#![tactic(auto)]

mod classes;
mod laws;
mod lexeme;
mod lexer;
mod scan;
mod spelling;

pub use laws::tokens_stand_in_their_source;
pub use lexer::{LexFault, lex};

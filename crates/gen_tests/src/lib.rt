//! Tests of the code of programs, with the lexer, the parser, the checker and the analysis below them.
#![tactic(auto)]

#[cfg(test)]
mod needs;

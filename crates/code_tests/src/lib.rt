//! Tests of code: an image that is made, copied and listed.
#![tactic(auto)]

#[cfg(test)]
mod images;

//! Frames of small images that are written by hand, each call of a frame once with memory left.
#![tactic(auto)]

#[cfg(test)]
mod buffer;
#[cfg(test)]
mod fib;
#[cfg(test)]
mod frames;
#[cfg(test)]
mod guards;
#[cfg(test)]
mod images;
#[cfg(test)]
mod loops;
#[cfg(test)]
mod played;
#[cfg(test)]
mod room;
#[cfg(test)]
mod rows;

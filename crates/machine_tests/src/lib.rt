//! Runs each public call of the machine's parts once, with memory left.
#![tactic(auto)]

#[cfg(test)]
mod actors;
#[cfg(test)]
mod futures;
#[cfg(test)]
mod matching;
#[cfg(test)]
mod serials;
#[cfg(test)]
mod values;

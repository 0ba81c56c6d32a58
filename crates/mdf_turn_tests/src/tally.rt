ghost use Rattle.std.specs.Prelude.{◌≡◌, true, false, [], ◌∷◌, ◌++◌, ◌==◌, find, reverse, IfOk, OnErr};

use crate::entry::Entry;
use mdf_turn::Logged;
use std::alloc::{AllocError, Global};

/// A named list of entries.
#[derive(Drop)]
pub struct Tally {
    pub name: u64,
    pub entries: Vec<Entry>,
}

impl Logged for Tally {
    ghost use Rattle.mdf_turn_tests.specs.Entries.{worker_of, is_out};
    ghost use Rattle.mdf_turn_tests.specs.Staying.{others_stay};

    type Job = u64;

    type Event = Entry;

    ghost job = { λ t. t.name };

    ghost events = { λ t. t.entries.items };

    ghost actor = { worker_of };

    ghost is_out = { is_out };

    ghost has_ended = { λ _. false };

    ghost others_stay = { others_stay };
}

impl Tally {
    ghost use Rattle.mdf_turn_tests.specs.Entries.{is_out};

    pub fn new(alloc: Global, name: u64, room: usize) -> Result<Tally, AllocError>
        ensures { IfOk result (λ t. (t.name ≡ name) × (t.entries.items ≡ [])) }
    {
        Ok(Tally {
            name,
            entries: Vec::with_capacity(alloc, room)?,
        })
    }

    /// Whether the worker's actor is out.
    pub fn is_out(&self, worker: u64) -> bool
        ensures { result ≡ is_out self.now.entries.items worker }
    {
        match last_of(self.entries.as_slice(), worker) {
            Some(entry) => entry.takes,
            None => false,
        }
    }

    /// Appends two entries of one worker: it takes its actor out and puts it back.
    pub fn add(&mut self, worker: u64, number: u64) -> Result<(), AllocError>
        ensures name { self.new.name ≡ self.old.name }
        ensures ok { IfOk result (λ _. self.new.entries.items ≡ self.old.entries.items ++ (record { worker = worker; number = number; takes = true } ∷ record { worker = worker; number = number; takes = false } ∷ [])) }
        ensures err { OnErr result (self.new.entries.items ≡ self.old.entries.items) }
    {
        let taken = Entry {
            worker,
            number,
            takes: true,
        };
        let back = Entry {
            worker,
            number,
            takes: false,
        };
        self.entries.extend_from_slice(&[taken, back])
    }
}

// The worker's last entry.
fn last_of(entries: &[Entry], worker: u64) -> Option<Entry>
    ensures { result ≡ find (λ e. e.worker == worker) (reverse entries.now) }
{
    entries
        .iter()
        .rev()
        .copied()
        .find(|entry| entry.worker == worker)
}

ghost use Rattle.std.specs.Prelude.{◌≡◌, ◌<◌, ◌≤◌, ◌++◌, length, IfOk, OnOk, slice_get};
ghost use Rattle.mdf_match.specs.Ports.{known_words, row_of};
ghost use Rattle.mdf_core.specs.Actors.{port_words};
ghost use Rattle.mdf_machine.specs.Internal.Starting.{HasPorts, start_in};

use crate::parts::Parts;
use mdf_match::{Matcher, Seen, Tag};
use mpl_value::{BodyStart, NoMemory, Words};
use std::alloc::Global;

impl Parts {
    /// The start of an actor's body.
    pub fn start(&self, alloc: Global, input: &Words, actor: u32) -> Result<BodyStart, NoMemory>
        requires there { actor < length self.now.rows }
        requires ports { HasPorts self.now actor }
        ensures { IfOk result (λ start. start ≡ start_in self.now input.now actor) }
    {
        let row = self.rows.row(actor);
        let args = words_of(&self.ports, alloc, actor, row.ports)?;
        let input = match row.member {
            None => input.copy()?,
            Some(_) => Words::new(alloc),
        };
        Ok(BodyStart {
            member: row.member,
            args,
            state: Words::new(alloc),
            object: 0,
            number: 0,
            input,
        })
    }
}

/// The words that have come to all ports of an actor, of which there are so many.
fn words_of(ports: &Matcher, alloc: Global, actor: u32, count: u32) -> Result<Words, NoMemory>
    requires { count ≡ length (row_of ports.now actor) }
    ensures { IfOk result (λ words. words ≡ port_words (row_of ports.now actor)) }
{
    let mut words = Words::new(alloc);
    for port in 0..count {
        add_words(ports, Tag { actor, port }, &mut words)?;
    }
    Ok(words)
}

/// The words that have come to a port, behind others.
fn add_words(ports: &Matcher, tag: Tag, words: &mut Words) -> Result<(), NoMemory>
    ensures { OnOk result (words.new ≡ words.old ++ known_words ports.now tag) }
{
    if let Some(Seen::Words(count)) = ports.seen(tag) {
        add_all(ports, tag, words, count)?;
    }
    Ok(())
}

fn add_all(ports: &Matcher, tag: Tag, words: &mut Words, count: u32) -> Result<(), NoMemory>
    requires { count ≡ length (known_words ports.now tag) }
    ensures { OnOk result (words.new ≡ words.old ++ known_words ports.now tag) }
{
    for at in 0..count {
        words.push(ports.word(tag, at))?;
    }
    Ok(())
}

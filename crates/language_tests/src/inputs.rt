//! What is answered when a program asks for its input, and what is left of it.
use mentat_cmd::{Ending, Status, quiet_command};
use mentat_io::{MemShelf, MemSink, MemSource, Text};
use mpl_value::{Bytes, NoMemory, Words};
use std::alloc::Global;
use std::test::Fail;

/// Runs a source over an input that is read a byte at a time, of which the call of this number fails.
fn run_with(
    alloc: Global,
    source: &str,
    input: &str,
    fails: i64,
) -> Result<(Ending, MemSink), NoMemory> {
    let mut shelf = MemShelf::new(alloc, Words::new(alloc));
    let name = Text::of(alloc, "a.mpl")?;
    shelf.add_file(name, Bytes::from_slice(alloc, source.as_bytes())?)?;
    let mut words = Vec::new(alloc);
    words.push(Text::of(alloc, "run")?)?;
    words.push(Text::of(alloc, "a.mpl")?)?;
    let left = Bytes::from_slice(alloc, input.as_bytes())?;
    let failing = Words::from_slice(alloc, [fails].as_slice())?;
    let mut input = MemSource::new(left, 1, failing);
    let mut out = MemSink::new(alloc, 100, Words::new(alloc));
    let mut err = MemSink::new(alloc, 100, Words::new(alloc));
    let ending = quiet_command(
        alloc,
        words.as_slice(),
        &mut shelf,
        &mut input,
        &mut out,
        &mut err,
    );
    Ok((ending, out))
}

#[test]
fn an_input_is_read_where_it_is_asked_for(rt: HostRuntime) -> Result<(), Fail> {
    let sum = "int main() { print(input() + input()); }";
    for (source, input, fails, status, turns, written) in [
        (sum, "5 -3\n", 99, Status::Done, 1, "2\n"),
        (sum, "5 -3 x", 99, Status::BadInput(5), 0, ""),
        (sum, "5 -3", 3, Status::ReadFault, 0, ""),
        ("int main() { print(1); }", "x", 1, Status::Done, 1, "1\n"),
    ] {
        let (ending, out) = run_with(rt.alloc(), source, input, fails)?;
        assert_eq!(rt; ending, Ending { status, turns }, "{source} {input}");
        assert_eq!(rt;
            out.written().as_slice(),
            written.as_bytes(),
            "{source} {input}"
        );
    }
    Ok(())
}

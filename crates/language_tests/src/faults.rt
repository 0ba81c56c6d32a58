//! What is written and answered when files and outputs fail.
use mentat_cmd::{Ending, Refusal, Status, quiet_command};
use mentat_io::{MemShelf, MemSink, MemSource, Text};
use mpl_value::{Bytes, NoMemory, Trap, TrapKind, Words};
use std::alloc::Global;
use std::test::Fail;

/// Runs a source from a shelf and over an output and an error stream of which the calls with these numbers fail. The
/// output takes at most so many bytes at a call, the error stream one.
fn run_over(
    alloc: Global,
    source: &str,
    shelf_fails: &[i64],
    most: u32,
    output_fails: &[i64],
    error_fails: &[i64],
) -> Result<(Ending, MemSink, MemSink), NoMemory> {
    let mut shelf = MemShelf::new(alloc, Words::from_slice(alloc, shelf_fails)?);
    let name = Text::of(alloc, "a.mpl")?;
    shelf.add_file(name, Bytes::from_slice(alloc, source.as_bytes())?)?;
    let mut words = Vec::new(alloc);
    words.push(Text::of(alloc, "run")?)?;
    words.push(Text::of(alloc, "a.mpl")?)?;
    let mut input = MemSource::new(Bytes::new(alloc), 1, Words::new(alloc));
    let mut out = MemSink::new(alloc, most.max(1), Words::from_slice(alloc, output_fails)?);
    let mut err = MemSink::new(alloc, 1, Words::from_slice(alloc, error_fails)?);
    let ending = quiet_command(
        alloc,
        words.as_slice(),
        &mut shelf,
        &mut input,
        &mut out,
        &mut err,
    );
    Ok((ending, out, err))
}

/// Of `12` and `34 5` in two lines the bytes before the failing call are written, and the run's turns are told.
#[test]
fn each_call_of_an_output_may_fail(rt: HostRuntime) -> Result<(), Fail> {
    let source = "int main() { print(12); print(34, 5); }";
    for (most, failing, status, written) in [
        (1, 1, Status::WriteFault, ""),
        (1, 8, Status::WriteFault, "12\n34 5"),
        (1, 9, Status::Done, "12\n34 5\n"),
        (3, 2, Status::WriteFault, "12\n"),
        (3, 3, Status::WriteFault, "12\n34 "),
        (100, 1, Status::WriteFault, ""),
        (100, 2, Status::Done, "12\n34 5\n"),
    ] {
        let (ending, out, err) = run_over(rt.alloc(), source, &[], most, &[failing], &[])?;
        let said = if status == Status::Done {
            ""
        } else {
            "mentat: write fault\n"
        };
        assert_eq!(rt; ending, Ending { status, turns: 1 }, "{most} {failing}");
        assert_eq!(rt;
            err.written().as_slice(),
            said.as_bytes(),
            "{most} {failing}"
        );
        assert_eq!(rt;
            out.written().as_slice(),
            written.as_bytes(),
            "{most} {failing}"
        );
    }
    Ok(())
}

#[test]
fn a_shelf_may_fail(rt: HostRuntime) -> Result<(), Fail> {
    for (failing, status, turns, written, said) in [
        (1, Status::ReadFault, 0, "", "mentat: read fault\n"),
        (2, Status::Done, 1, "12\n", ""),
    ] {
        let source = "int main() { print(12); }";
        let (ending, out, err) = run_over(rt.alloc(), source, &[failing], 1, &[], &[])?;
        assert_eq!(rt; ending, Ending { status, turns });
        assert_eq!(rt; out.written().as_slice(), written.as_bytes());
        assert_eq!(rt; err.written().as_slice(), said.as_bytes());
    }
    Ok(())
}

/// Of a message the bytes before the failing call are written. Behind the lines of a run that is a write fault, and else
/// the status stays.
#[test]
fn an_error_stream_may_fail(rt: HostRuntime) -> Result<(), Fail> {
    let overflows = "int main() { print(9223372036854775807 + 1); }";
    let overflow = Trap {
        kind: TrapKind::Overflow,
        line: 1,
    };
    for (source, failing, status, turns, said) in [
        (overflows, 1, Status::WriteFault, 1, ""),
        (overflows, 9, Status::WriteFault, 1, "mentat: "),
        (
            overflows,
            32,
            Status::WriteFault,
            1,
            "mentat: trap Overflow at line 1",
        ),
        (
            overflows,
            33,
            Status::Trap(overflow),
            1,
            "mentat: trap Overflow at line 1\n",
        ),
        (
            "int main( {",
            9,
            Status::Refused(Refusal::Syntax(10)),
            0,
            "mentat: ",
        ),
    ] {
        let (ending, _, err) = run_over(rt.alloc(), source, &[], 1, &[], &[failing])?;
        assert_eq!(rt; ending, Ending { status, turns }, "{source} {failing}");
        assert_eq!(rt;
            err.written().as_slice(),
            said.as_bytes(),
            "{source} {failing}"
        );
    }
    Ok(())
}

//! The uses that are marked, in each of the mains.
ghost use Rattle.std.specs.Prelude.{◌≤◌, length};

use crate::mains::{DECLARATIONS, MAINS};
use crate::nests::nest_of;
use crate::uses::marked_uses;
use mpl_depend::pending;
use mpl_lexer::lex;
use mpl_mean::Typed;
use mpl_parse::parse;
use mpl_types::check;
use mpl_value::NoMemory;
use std::alloc::Global;
use std::test::Fail;

/// A source, and where the uses begin that are to be marked.
#[derive(Drop)]
struct Expected {
    source: Vec<u8>,
    marks: Vec<usize>,
}

/// Takes each `@` out. It stands before a use that is to be marked.
fn add(expected: &mut Expected, text: &[u8]) -> Result<(), NoMemory> {
    for byte in text {
        if *byte == b'@' {
            let at = expected.source.len();
            expected.marks.push(at)?;
        } else {
            expected.source.push(*byte)?;
        }
    }
    Ok(())
}

fn expected_of(alloc: Global, main: &[u8]) -> Result<Expected, NoMemory> {
    let mut expected = Expected {
        source: Vec::new(alloc),
        marks: Vec::new(alloc),
    };
    add(&mut expected, DECLARATIONS.as_bytes())?;
    add(&mut expected, main)?;
    Ok(expected)
}

/// The accepted program of a source.
fn typed_of(alloc: Global, source: &[u8]) -> Option<Typed> {
    if source.len() > 1_048_576 {
        return None;
    }
    let tokens = lex(alloc, source).ok()?;
    if tokens.list.as_slice().len() > 1_048_576 {
        return None;
    }
    let program = parse(alloc, &tokens).ok()?;
    check(alloc, program).ok()
}

/// The uses that are marked are the ones that are to be, and there are no other marks.
fn is_right(alloc: Global, main: &[u8]) -> Result<bool, NoMemory> {
    let expected = expected_of(alloc, main)?;
    match typed_of(alloc, expected.source.as_slice()) {
        Some(typed) => {
            let map = pending(alloc, &typed)?;
            let found = marked_uses(alloc, &map, typed.program())?;
            Ok(found.as_slice() == expected.marks.as_slice() && map.nodes().len() == found.len())
        }
        None => Ok(false),
    }
}

#[test]
fn uses_are_marked(rt: HostRuntime) -> Result<(), Fail> {
    for main in MAINS {
        assert!(rt; is_right(rt.alloc(), main.as_bytes())?, "{main}");
    }
    Ok(())
}

/// Each loop is walked only as often as something is new at its head, so this ends at once.
#[test]
fn nests_are_marked(rt: HostRuntime) -> Result<(), Fail> {
    let main = nest_of(rt.alloc())?;
    assert!(rt; is_right(rt.alloc(), main.as_slice())?);
    Ok(())
}

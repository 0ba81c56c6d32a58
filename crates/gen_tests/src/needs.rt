//! How often a variable is needed in the code of each of the mains.
use depend_tests::mains::{DECLARATIONS, MAINS};
use mdf_code::{Image, Instr, RawCode, RawImage};
use mpl_depend::pending;
use mpl_gen_body::image::compile;
use mpl_lexer::lex;
use mpl_mean::Typed;
use mpl_parse::parse;
use mpl_types::check;
use mpl_value::NoMemory;
use std::alloc::Global;
use std::test::Fail;

/// A source, and how many uses in it are to be marked.
#[derive(Drop)]
struct Expected {
    source: Vec<u8>,
    marks: usize,
}

/// Takes each `@` out. It stands before a use that is to be marked.
fn add(expected: &mut Expected, text: &[u8]) -> Result<(), NoMemory> {
    for byte in text {
        if *byte == b'@' {
            expected.marks = expected.marks.saturating_add(1);
        } else {
            expected.source.push(*byte)?;
        }
    }
    Ok(())
}

fn expected_of(alloc: Global, main: &[u8]) -> Result<Expected, NoMemory> {
    let mut expected = Expected {
        source: Vec::new(alloc),
        marks: 0,
    };
    add(&mut expected, DECLARATIONS.as_bytes())?;
    add(&mut expected, main)?;
    Ok(expected)
}

/// The accepted program of a source.
fn typed_of(alloc: Global, source: &[u8]) -> Option<Typed> {
    if source.len() > 1_048_576 {
        return None;
    }
    let tokens = lex(alloc, source).ok()?;
    if tokens.list.as_slice().len() > 1_048_576 {
        return None;
    }
    let program = parse(alloc, &tokens).ok()?;
    check(alloc, program).ok()
}

fn image_of(alloc: Global, source: &[u8]) -> Option<Image> {
    let typed = typed_of(alloc, source)?;
    let map = pending(alloc, &typed).ok()?;
    compile(alloc, &typed, &map).ok()
}

fn needs_in(body: &RawCode) -> usize {
    let mut count = 0_usize;
    for instruction in body.code.as_slice() {
        if let Instr::Need(_) = instruction {
            count = count.saturating_add(1);
        }
    }
    count
}

fn needs_of(image: &RawImage) -> usize {
    let mut count = needs_in(&image.main);
    for function in image.functions.as_slice() {
        count = count.saturating_add(needs_in(&function.body));
    }
    for member in image.members.as_slice() {
        count = count.saturating_add(needs_in(&member.body));
    }
    count
}

/// How often a variable is needed in the code of the whole program.
fn needs_with(alloc: Global, source: &[u8]) -> Option<usize> {
    let image = image_of(alloc, source)?;
    Some(needs_of(image.raw()))
}

fn is_right(alloc: Global, main: &[u8]) -> Result<bool, NoMemory> {
    let expected = expected_of(alloc, main)?;
    Ok(needs_with(alloc, expected.source.as_slice()) == Some(expected.marks))
}

#[test]
fn marked_uses_have_needs(rt: HostRuntime) -> Result<(), Fail> {
    for main in MAINS {
        assert!(rt; is_right(rt.alloc(), main.as_bytes())?, "{main}");
    }
    Ok(())
}

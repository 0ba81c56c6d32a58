//! Loops nested in one another, whose copies feed one another.
use mpl_value::NoMemory;
use std::alloc::Global;

const DEPTH: u8 = 25;

fn add(source: &mut Vec<u8>, text: &[u8]) -> Result<(), NoMemory> {
    for byte in text {
        source.push(*byte)?;
    }
    Ok(())
}

/// The variable of a number below 100.
fn add_variable(source: &mut Vec<u8>, number: u8) -> Result<(), NoMemory> {
    source.push(b'a')?;
    source.push(b'0' + number / 10 % 10)?;
    source.push(b'0' + number % 10)?;
    Ok(())
}

/// The end of a loop's body: the variable of the loop inside is known, and that of this one takes what any of those outside has.
fn add_copies(source: &mut Vec<u8>, level: u8) -> Result<(), NoMemory> {
    if level < DEPTH {
        add_variable(source, level + 1)?;
        add(source, b" = 1; ".as_slice())?;
    }
    for outer in 0..level {
        add(source, b"if (1 < 2) ".as_slice())?;
        add_variable(source, level)?;
        add(source, b" = ".as_slice())?;
        add_variable(source, outer)?;
        add(source, b"; ".as_slice())?;
    }
    add(source, b"} ".as_slice())
}

/// A main with an `@` before each use that is to be marked. What is loose outside of a loop makes its variable loose with the
/// next round, and behind the loop that variable is known again, for the next round outside.
pub fn nest_of(alloc: Global) -> Result<Vec<u8>, NoMemory> {
    let mut source = Vec::new(alloc);
    add(
        &mut source,
        b"int main() { calc w; int a00 = w.sq(2); ".as_slice(),
    )?;
    for outer in 0..DEPTH {
        add(&mut source, b"int ".as_slice())?;
        add_variable(&mut source, outer + 1)?;
        add(&mut source, b" = 1; ".as_slice())?;
    }
    for _ in 0..DEPTH {
        add(&mut source, b"while (1 < 2) { ".as_slice())?;
    }
    for inner in 0..DEPTH {
        add_copies(&mut source, DEPTH - inner)?;
    }
    add(&mut source, b"print(@a00, @a01, a02); }".as_slice())?;
    Ok(source)
}

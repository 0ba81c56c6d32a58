//! Reading an input.
ghost use Rattle.std.specs.Prelude.{◌≡◌, ◌≤◌, Err, IfErr, IfOk};
ghost use Rattle.mentat_io.specs.Causes.{Rose};
ghost use Rattle.mentat_input.specs.Reads.{IsRead, Reads};
ghost use Rattle.mentat_input.specs.declared.fault.InputFault.TheVariants as fault;

use crate::fault::InputFault;
use crate::words::numbers_of;
use mentat_io::Source;
use mpl_value::{Bytes, Words};
use std::alloc::Global;

/// The most bytes that an input may have.
const BYTE_LIMIT: usize = 2_097_152;

/// The most numbers that an input may have.
const NUMBER_LIMIT: usize = 65_536;

/// How many bytes are read at a time.
const PIECE: usize = 4096;

/// Reads an input to its end, and answers its numbers.
pub fn read_numbers<S: Source>(alloc: Global, input: &mut S) -> Result<Words, InputFault>
    ensures answer { Reads (S.left input.old) (S.left input.new) result }
    ensures fault { result ≡ Err fault.ReadFault → Rose (S.faults input.old) (S.faults input.new) }
    ensures later { S.faults input.old ≤ S.faults input.new }
{
    let bytes = read_all(alloc, input)?;
    if bytes.len() > BYTE_LIMIT {
        return Err(InputFault::TooLong);
    }
    let numbers = numbers_of(alloc, bytes.as_slice())?;
    if numbers.len() > NUMBER_LIMIT {
        return Err(InputFault::TooLong);
    }
    Ok(numbers)
}

/// Reads all bytes, or the first ones where they are more than an input may have.
fn read_all<S: Source>(alloc: Global, input: &mut S) -> Result<Bytes, InputFault>
    ensures read { IfOk result (IsRead (S.left input.old) (S.left input.new)) }
    ensures unread { IfErr result (λ e. Reads (S.left input.old) (S.left input.new) (Err e)) }
    ensures cause { result ≡ Err fault.ReadFault → Rose (S.faults input.old) (S.faults input.new) }
    ensures later { S.faults input.old ≤ S.faults input.new }
{
    let mut bytes = Bytes::new(alloc);
    let mut piece = [0u8; PIECE];
    while bytes.len() <= BYTE_LIMIT {
        let room = (BYTE_LIMIT + 1 - bytes.len()).min(PIECE);
        let count = input.read(&mut piece[..room])?;
        if count == 0 {
            return Ok(bytes);
        }
        bytes.extend(&piece[..count])?;
    }
    Ok(bytes)
}

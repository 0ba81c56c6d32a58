ghost use Rattle.std.specs.Prelude.{◌≡◌, ◌+◌, ◌<◌, IfOk, OnErr, ℕ};
ghost use Rattle.mpl_value.specs.declared.body.Arg.{Arg};
ghost use Rattle.mdf_code.specs.Frames as frames;
ghost use Rattle.mdf_code.specs.declared.instr.Instr.TheVariants as instr;
ghost use Rattle.mdf_vm.specs.Internal.Moves.{Did};
ghost use Rattle.mdf_vm.specs.Runnings.{frame_of};
ghost use Rattle.std.specs.Prelude.{◌++◌, OnOk};
ghost use Rattle.mdf_code.specs.Steps as steps;

use crate::code::is_main;
use crate::moves::{Move, STRAY};
use crate::running::Running;
use mpl_value::{Bytes, NoMemory};
use std::alloc::Global;

impl Running {
    /// A line of words.
    pub fn print(&mut self, next: usize, letters: &Bytes) -> Result<Move, NoMemory>
        requires { next ≡ self.old.place + 1 }
        ensures ok { IfOk result (λ move. (knows : ℕ → Arg) (x : frames.Around) → Did knows x (instr.Print letters.now) self.old move self.new) }
        ensures err { OnErr result (frame_of self.new ≡ frame_of self.old) }
    {
        if !is_main(self.code) {
            return Ok(STRAY);
        }
        let letters = letters.as_slice();
        let Some(words) = self.words.last(letters.len()) else {
            return Ok(STRAY);
        };
        let line = line_of(self.alloc, letters, words)?;
        self.lines.extend(line.as_slice())?;
        self.words.shorten(letters.len());
        self.place = next;
        Ok(Move::Goes)
    }
}

fn line_of(alloc: Global, letters: &[u8], words: &[i64]) -> Result<Bytes, NoMemory>
    ensures { IfOk result (λ line. line ≡ steps.line_of letters.now words.now) }
{
    let mut line = Bytes::new(alloc);
    match (letters, words) {
        ([letter, letters @ ..], [word, words @ ..]) => {
            print_word(alloc, *letter, *word, &mut line)?;
            print_others(alloc, letters, words, &mut line)?;
        }
        _ => line.push(b'\n')?,
    }
    Ok(line)
}

fn print_others(
    alloc: Global,
    letters: &[u8],
    words: &[i64],
    line: &mut Bytes,
) -> Result<(), NoMemory>
    ensures { OnOk result (line.new ≡ line.old ++ steps.texts_after_first letters.now words.now) }
{
    for place in 0..letters.len().min(words.len()) {
        line.push(b' ')?;
        print_word(alloc, letters[place], words[place], line)?;
    }
    line.push(b'\n')
}

fn print_word(alloc: Global, letter: u8, word: i64, line: &mut Bytes) -> Result<(), NoMemory>
    ensures { OnOk result (line.new ≡ line.old ++ steps.word_text letter word) }
{
    if letter == b'b' {
        return line.extend(if word == 0 {
            b"false".as_slice()
        } else {
            b"true".as_slice()
        });
    }
    let text = word.to_string(alloc)?;
    line.extend(text.as_bytes())
}

//! `mentat run FILE`, with options behind it, runs the MPL program in FILE. It ends with the number of the command's status.
#![tactic(auto)]

use mentat_cmd::{Status, quiet_command};
use mentat_io::{FileShelf, StdSink, StdSource, Text};
use mpl_value::NoMemory;
use std::env;
use std::io::ErrorKind;
use std::process::ExitCode;

// The words after the program's name, and none where one of them is no text.
fn words(rt: &HostRuntime) -> Result<Vec<Text>, NoMemory> {
    let mut words = Vec::new(rt.alloc());
    match env::args(rt) {
        Ok(args) => {
            for word in args.skip(1) {
                words.push(Text::of(rt.alloc(), word.as_str())?)?;
            }
        }
        Err(error) if error.kind() == ErrorKind::InvalidData => {}
        Err(_) => return Err(NoMemory),
    }
    Ok(words)
}

fn main(rt: HostRuntime) -> ExitCode {
    let status = match words(&rt) {
        Ok(words) => {
            let mut input = StdSource::new(rt.stdin());
            let mut out = StdSink::new(rt.stdout());
            let mut err = StdSink::new(rt.stderr());
            let mut shelf = FileShelf::new(&rt);
            quiet_command(
                rt.alloc(),
                words.as_slice(),
                &mut shelf,
                &mut input,
                &mut out,
                &mut err,
            )
            .status
        }
        Err(NoMemory) => Status::NoMemory,
    };
    ExitCode::from(status.number())
}

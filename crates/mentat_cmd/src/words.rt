ghost use Rattle.std.specs.Prelude.{◌≡◌, ◌≤◌, IfSome};
ghost use Rattle.std.specs.Option.{option_map};
ghost use Rattle.mpl_mean.specs.Limits.{greatest_budget};
ghost use Rattle.mentat_cmd.specs.Internal.Commands.{command_seen};
ghost use Rattle.mentat_cmd.specs.Words.{budget_in, budget_of, command_of, is_budget, is_file, is_run, is_workers, number_in};

use mentat_input::number_within;
use mentat_io::Text;

/// The turns that a run may take that isn't given another budget.
const USUAL_BUDGET: u64 = 1_000_000;

const GREATEST_BUDGET: u64 = 4_000_000;

/// The most digits that a number has.
const MOST_DIGITS: usize = 7;

/// The program in a file is run, and may take so many turns.
#[derive(Clone, Copy)]
pub struct Command<'a> {
    pub file: &'a Text,
    pub budget: u64,
}

/// What the words `run FILE`, with options behind them, ask for.
pub fn command_of(words: &[Text]) -> Option<Command<'_>>
    ensures command { option_map command_seen result ≡ command_of words.now }
    ensures budget { IfSome result (λ c. c.budget ≤ greatest_budget) }
{
    match words {
        [command, file, options @ ..] if is_run(command) && is_file(file) => {
            let budget = budget_of(options)?;
            Some(Command { file, budget })
        }
        _ => None,
    }
}

/// `[--workers 0] [--budget N]`
fn budget_of(options: &[Text]) -> Option<u64>
    ensures budget { result ≡ budget_of options.now }
    ensures within { IfSome result (λ budget. budget ≤ greatest_budget) }
{
    match options {
        [option, value, others @ ..] if is_workers(option) => {
            number_in(0, 0, value)?;
            budget_in(others)
        }
        _ => budget_in(options),
    }
}

/// `[--budget N]`
fn budget_in(options: &[Text]) -> Option<u64>
    ensures budget { result ≡ budget_in options.now }
    ensures within { IfSome result (λ budget. budget ≤ greatest_budget) }
{
    match options {
        [] => Some(USUAL_BUDGET),
        [option, value] if is_budget(option) => number_in(1, GREATEST_BUDGET, value),
        _ => None,
    }
}

/// The number that a word of few digits is, where it is in the range.
fn number_in(least: u64, most: u64, word: &Text) -> Option<u64>
    ensures number { result ≡ number_in least most word.now }
    ensures within { IfSome result (λ number. number ≤ most) }
{
    if word.as_bytes().len() > MOST_DIGITS {
        return None;
    }
    let number = number_within(most, word.as_bytes())?;
    if number >= least { Some(number) } else { None }
}

fn is_run(word: &Text) -> bool
    ensures { result ≡ is_run word.now }
{
    word.as_bytes() == b"run".as_slice()
}

fn is_workers(word: &Text) -> bool
    ensures { result ≡ is_workers word.now }
{
    word.as_bytes() == b"--workers".as_slice()
}

fn is_budget(word: &Text) -> bool
    ensures { result ≡ is_budget word.now }
{
    word.as_bytes() == b"--budget".as_slice()
}

// A file's name is not empty and doesn't begin with a dash.
fn is_file(word: &Text) -> bool
    ensures { result ≡ is_file word.now }
{
    match word.as_bytes() {
        [] => false,
        [first, ..] => *first != b'-',
    }
}

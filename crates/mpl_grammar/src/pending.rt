ghost use Rattle.std.specs.Prelude.{◌≡◌, ℕ, ◌+◌, ◌<◌, ◌≤◌, ◌^◌, [], ◌∷◌, ◌++◌, true, if◌then◌else◌, IfOk, OnOk, OnErr, MatchOption, None, Some};
ghost use Rattle.std.specs.List.{list_all};
ghost use Rattle.mpl_grammar.specs.Internal.Grammar as grammar;
ghost use Rattle.mpl_grammar.specs.Internal.Machine as machine;
ghost use Rattle.mpl_grammar.specs.Internal.Taking.{WasTaken};

use crate::symbol::Symbol;
use mpl_value::NoMemory;
use std::alloc::Global;
use std::marker::Model;

/// What is still to come, and how much that weighs. The symbols lie with the next one last.
#[derive(Drop)]
pub struct Pending {
    symbols: Vec<Symbol>,
    total: u32,
}

impl Model for Pending {
    ghost use Rattle.std.specs.Prelude.{List, ◌≡◌, reverse};
    ghost use Rattle.std.specs.Coded.{codes};
    ghost use Rattle.mpl_grammar.specs.declared.symbol.Symbol.{Symbol};
    ghost use Rattle.mpl_grammar.specs.contracts.symbol.Symbol as symbol;
    ghost use Rattle.mpl_grammar.specs.Internal.Machine as machine;

    ghost Value = { List Symbol };

    ghost coded = { Prim.hlevel (codes, symbol.the_row.coded) };

    ghost view = { λ p. reverse p.symbols.items };

    ghost invariant = { λ p. p.total ≡ machine.weight (reverse p.symbols.items) };
}

/// How much heavier it is where the symbol is to come.
fn added(symbol: Symbol) -> u32
    ensures { (w : ℕ) → machine.heavier symbol w ≡ w + result }
{
    match symbol {
        Symbol::CloseParenthesis
        | Symbol::CloseBracket
        | Symbol::Fields
        | Symbol::Items
        | Symbol::Entries
        | Symbol::BlockRest
        | Symbol::ElseIfAny
        | Symbol::WordEnd => 1,
        Symbol::Operand(operators) | Symbol::Operators(operators) => operators,
        _ => 0,
    }
}

/// In whichever order they come.
fn all_may_end(symbols: &[Symbol]) -> bool
    ensures { result ≡ list_all grammar.may_end symbols.now }
{
    symbols.iter().all(|symbol| symbol.may_end())
}

impl Pending {
    /// Nothing, which is between two declarations.
    pub fn new(alloc: Global) -> Pending
        ensures { result ≡ [] }
    {
        Pending {
            symbols: Vec::new(alloc),
            total: 0,
        }
    }

    /// The weight at the token behind which this is to come.
    pub fn weight(&self) -> u32
        ensures { result ≡ machine.weight self.now }
    {
        self.total
    }

    /// Nothing more has to come.
    #[tactic(auto, using(crate::proofs::Reversed::all_reversed))]
    pub fn may_end(&self) -> bool
        ensures { result ≡ list_all grammar.may_end self.now }
    {
        all_may_end(self.symbols.as_slice())
    }

    /// One symbol more, which is the next.
    #[tactic(auto, using(crate::proofs::Reversed::pushed_on))]
    pub fn push(&mut self, symbol: Symbol) -> Result<(), NoMemory>
        requires { machine.heavier symbol (machine.weight self.old) < 2 ^ 32 }
        ensures ok { OnOk result (self.new ≡ symbol ∷ self.old) }
        ensures err { OnErr result (self.new ≡ self.old) }
    {
        let more = added(symbol);
        self.symbols.push(symbol)?;
        self.total += more;
        Ok(())
    }

    /// The next symbol, which is so no more.
    #[tactic(auto, using(crate::proofs::Reversed::popped_off))]
    pub fn pop(&mut self) -> Option<Symbol>
        ensures { MatchOption result ((self.old ≡ []) × (self.new ≡ [])) (λ symbol. self.old ≡ symbol ∷ self.new) }
    {
        let symbol = self.symbols.pop()?;
        self.total -= added(symbol);
        Some(symbol)
    }
}

impl Pending {
    /// The symbols come next, in their order. It answers true.
    pub fn push_all(&mut self, symbols: &[Symbol]) -> Result<bool, NoMemory>
        requires { machine.weight (symbols.now ++ self.old) < 2 ^ 32 }
        ensures { IfOk result (λ taken. (taken ≡ true) × (self.new ≡ symbols.now ++ self.old)) }
    {
        let mut left = symbols.len();
        while left > 0 {
            left -= 1;
            self.push(symbols[left])?;
        }
        Ok(true)
    }

    /// A token of one kind, and what is to come behind it.
    pub fn on(&mut self, fits: bool, symbols: &[Symbol]) -> Result<bool, NoMemory>
        requires { machine.weight (symbols.now ++ self.old) < 2 ^ 32 }
        ensures { IfOk result (λ taken. WasTaken (if fits then Some symbols.now else None) taken self.old self.new) }
    {
        if fits {
            self.push_all(symbols)
        } else {
            Ok(false)
        }
    }
}

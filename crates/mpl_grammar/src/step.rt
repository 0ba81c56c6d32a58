//! One token's step of the machine.
ghost use Rattle.std.specs.Prelude.{◌≡◌, ◌≤◌, Some, None, IfOk, if◌then◌else◌};
ghost use Rattle.mpl_grammar.specs.Internal.Machine as machine;
ghost use Rattle.mpl_grammar.specs.Internal.Taking.{WasTaken};
ghost use Rattle.mpl_mean.specs.Limits.{most_weight};

use crate::kinds::{is_keyword, is_mark, is_name, is_number, is_operator, is_type};
use crate::pending::Pending;
use crate::symbol::Symbol;
use mpl_ast::token::{Keyword, Mark, TokenKind};
use mpl_value::NoMemory;

impl Pending {
    /// The token, where the symbol that was the next takes it. It says whether it does.
    // Inlined, all its tests would be made before the loop over the symbols, for each token.
    #[inline(never)]
    pub fn take(&mut self, symbol: Symbol, kind: &TokenKind) -> Result<bool, NoMemory>
        requires { machine.heavier symbol (machine.weight self.old) ≤ most_weight }
        ensures { IfOk result (λ taken. WasTaken (machine.takes symbol kind.now) taken self.old self.new) }
    {
        match symbol {
            Symbol::AName => Ok(is_name(kind)),
            Symbol::ANumber => Ok(is_number(kind)),
            Symbol::AType => Ok(is_type(kind)),
            Symbol::Semicolon => Ok(is_mark(kind, Mark::Semicolon)),
            Symbol::Colon => Ok(is_mark(kind, Mark::Colon)),
            Symbol::Dot => Ok(is_mark(kind, Mark::Dot)),
            Symbol::Assign => Ok(is_mark(kind, Mark::Assign)),
            Symbol::MentatWord => Ok(is_keyword(kind, Keyword::Mentat)),
            Symbol::ClassWord => Ok(is_keyword(kind, Keyword::Class)),
            Symbol::AcceptWord => Ok(is_keyword(kind, Keyword::Accept)),
            Symbol::CloseParenthesis => Ok(is_mark(kind, Mark::CloseParenthesis)),
            Symbol::CloseBracket => Ok(is_mark(kind, Mark::CloseBracket)),
            Symbol::OpenFields => self.on(is_mark(kind, Mark::OpenBrace), &[Symbol::Fields]),
            Symbol::OpenItems => self.on(is_mark(kind, Mark::OpenBrace), &[Symbol::Items]),
            Symbol::OpenEntries => self.on(is_mark(kind, Mark::OpenBrace), &[Symbol::Entries]),
            Symbol::OpenFormals => self.on(
                is_mark(kind, Mark::OpenParenthesis),
                &[Symbol::FormalsIfAny, Symbol::CloseParenthesis],
            ),
            Symbol::OpenTest => self.on(
                is_mark(kind, Mark::OpenParenthesis),
                &[Symbol::Operand(0), Symbol::CloseParenthesis],
            ),
            Symbol::OpenFor => self.on(
                is_mark(kind, Mark::OpenParenthesis),
                &[
                    Symbol::ForStart,
                    Symbol::Semicolon,
                    Symbol::Operand(0),
                    Symbol::Semicolon,
                    Symbol::ForStep,
                    Symbol::CloseParenthesis,
                ],
            ),
            Symbol::OpenPrint => self.on(
                is_mark(kind, Mark::OpenParenthesis),
                &[
                    Symbol::Operand(0),
                    Symbol::MoreExpressions,
                    Symbol::CloseParenthesis,
                ],
            ),
            Symbol::OpenFlow => self.on(
                is_mark(kind, Mark::OpenParenthesis),
                &[Symbol::AFlow, Symbol::CloseParenthesis],
            ),
            Symbol::OpenFlows => self.on(
                is_mark(kind, Mark::OpenParenthesis),
                &[Symbol::FlowsIfAny, Symbol::CloseParenthesis],
            ),
            Symbol::OpenNothing => self.on(
                is_mark(kind, Mark::OpenParenthesis),
                &[Symbol::CloseParenthesis],
            ),
            Symbol::ABlock => self.on(is_mark(kind, Mark::OpenBrace), &[Symbol::BlockRest]),
            Symbol::DimensionIfAny => self.on(
                is_mark(kind, Mark::OpenBracket),
                &[Symbol::ANumber, Symbol::CloseBracket],
            ),
            Symbol::MoreNames => self.on(
                is_mark(kind, Mark::Comma),
                &[Symbol::AName, Symbol::DimensionIfAny, Symbol::MoreNames],
            ),
            Symbol::FormalsIfAny => self.on(is_type(kind), &[Symbol::AName, Symbol::MoreFormals]),
            Symbol::MoreFormals => self.on(
                is_mark(kind, Mark::Comma),
                &[Symbol::AType, Symbol::AName, Symbol::MoreFormals],
            ),
            Symbol::GuardIfAny => self.on(is_keyword(kind, Keyword::Guard), &[Symbol::OpenTest]),
            Symbol::MoreDeclarators => self.on(
                is_mark(kind, Mark::Comma),
                &[
                    Symbol::AName,
                    Symbol::DeclaratorEnd,
                    Symbol::MoreDeclarators,
                ],
            ),
            Symbol::ElseIfAny => self.on(
                is_keyword(kind, Keyword::Else),
                &[Symbol::AStatement, Symbol::WordEnd],
            ),
            Symbol::ForStep => self.on(is_name(kind), &[Symbol::AssignedName]),
            Symbol::MoreFlows => self.on(
                is_mark(kind, Mark::Comma),
                &[Symbol::AFlow, Symbol::MoreFlows],
            ),
            Symbol::MoreExpressions => self.on(
                is_mark(kind, Mark::Comma),
                &[Symbol::Operand(0), Symbol::MoreExpressions],
            ),
            Symbol::Operators(n) => self.on(is_operator(kind), &[Symbol::Operand(n + 1)]),
            Symbol::ElementIfAny => self.on(
                is_mark(kind, Mark::OpenBracket),
                &[Symbol::Operand(0), Symbol::CloseBracket],
            ),
            Symbol::Fields => self.take_fields(kind),
            Symbol::Items => self.take_items(kind),
            Symbol::Entries => self.take_entries(kind),
            Symbol::BehindItemName => self.take_behind_item_name(kind),
            Symbol::BlockRest => self.take_block_rest(kind),
            Symbol::AStatement => self.take_statement(kind),
            Symbol::StatementName => self.take_statement_name(kind),
            Symbol::StatementDot => self.take_statement_dot(kind),
            Symbol::StatementField => self.take_statement_field(kind),
            Symbol::StatementFieldDot => self.take_statement_field_dot(kind),
            Symbol::DeclaratorEnd => self.take_declarator_end(kind),
            Symbol::ForStart => self.take_for_start(kind),
            Symbol::ForName => self.take_for_name(kind),
            Symbol::AssignedName => self.take_assigned_name(kind),
            Symbol::AssignedField => self.take_assigned_field(kind),
            Symbol::AFlow => self.take_flow(kind),
            Symbol::FlowOwn => self.take_flow_own(kind),
            Symbol::FlowName => self.take_flow_name(kind),
            Symbol::FlowField => self.take_flow_field(kind),
            Symbol::FlowsIfAny => self.take_flows(kind),
            Symbol::ExpressionIfAny => self.take_expression_if_any(kind),
            Symbol::ExpressionsIfAny => self.take_expressions(kind),
            Symbol::OperandName => self.take_operand_name(kind),
            Symbol::Operand(n) => self.take_operand(n, kind),
            Symbol::WordEnd => Ok(false),
        }
    }

    /// One token. It says whether it may come; what is to come then is what is to come behind it.
    #[tactic(auto, using(crate::proofs::Stepping::goes_taken, crate::proofs::Stepping::goes_over, crate::proofs::Stepping::goes_nowhere, crate::proofs::Stepping::goes_declared, crate::proofs::Stepping::light_below))]
    pub fn step(&mut self, kind: &TokenKind) -> Result<bool, NoMemory>
        requires { machine.weight self.old ≤ most_weight }
        ensures { IfOk result (λ goes. machine.next self.old kind.now ≡ (if goes then Some self.new else None)) }
    {
        while let Some(symbol) = self.pop() {
            if self.take(symbol, kind)? {
                return Ok(true);
            }
            if !symbol.may_end() {
                return Ok(false);
            }
        }
        self.take_declaration(kind)
    }
}

//! The table of the grammar: what each token leads to.
ghost use Rattle.std.specs.Prelude.{◌≡◌, ◌+◌, ◌≤◌, ◌<◌, ◌^◌, IfOk};
ghost use Rattle.mpl_grammar.specs.Internal.Grammar as grammar;
ghost use Rattle.mpl_grammar.specs.Internal.Machine as machine;
ghost use Rattle.mpl_grammar.specs.Internal.Taking.{WasTaken};
ghost use Rattle.mpl_mean.specs.Limits.{most_weight};
ghost use Rattle.mpl_grammar.specs.declared.symbol.Symbol.TheVariants as symbols;

use crate::kinds::{
    is_access, is_basic_type, is_class_kind, is_constant, is_keyword, is_mark, is_name, is_number,
    is_operator, is_type, is_unary,
};
use crate::pending::Pending;
use crate::symbol::Symbol;
use mpl_ast::token::{Keyword, Mark, TokenKind};
use mpl_value::NoMemory;

impl Pending {
    pub fn take_fields(&mut self, kind: &TokenKind) -> Result<bool, NoMemory>
        requires { machine.weight self.old ≤ most_weight }
        ensures { IfOk result (λ taken. WasTaken (machine.takes symbols.Fields kind.now) taken self.old self.new) }
    {
        if is_mark(kind, Mark::CloseBrace) {
            Ok(true)
        } else if is_type(kind) {
            self.push_all(&[
                Symbol::AName,
                Symbol::DimensionIfAny,
                Symbol::MoreNames,
                Symbol::Semicolon,
                Symbol::Fields,
            ])
        } else {
            Ok(false)
        }
    }

    pub fn take_items(&mut self, kind: &TokenKind) -> Result<bool, NoMemory>
        requires { machine.weight self.old ≤ most_weight }
        ensures { IfOk result (λ taken. WasTaken (machine.takes symbols.Items kind.now) taken self.old self.new) }
    {
        if is_mark(kind, Mark::CloseBrace) {
            Ok(true)
        } else if is_type(kind) {
            self.push_all(&[Symbol::AName, Symbol::BehindItemName, Symbol::Items])
        } else if is_keyword(kind, Keyword::Void) {
            self.push_all(&[
                Symbol::AName,
                Symbol::OpenFormals,
                Symbol::ABlock,
                Symbol::Items,
            ])
        } else if is_keyword(kind, Keyword::Select) {
            self.push_all(&[Symbol::OpenEntries, Symbol::Items])
        } else if is_access(kind) {
            self.push_all(&[Symbol::Colon, Symbol::Items])
        } else if is_mark(kind, Mark::Semicolon) {
            self.push_all(&[Symbol::Items])
        } else {
            Ok(false)
        }
    }

    pub fn take_entries(&mut self, kind: &TokenKind) -> Result<bool, NoMemory>
        requires { machine.weight self.old ≤ most_weight }
        ensures { IfOk result (λ taken. WasTaken (machine.takes symbols.Entries kind.now) taken self.old self.new) }
    {
        if is_mark(kind, Mark::CloseBrace) {
            Ok(true)
        } else if is_keyword(kind, Keyword::Priority) {
            self.push_all(&[
                Symbol::ANumber,
                Symbol::Colon,
                Symbol::GuardIfAny,
                Symbol::AcceptWord,
                Symbol::AName,
                Symbol::Semicolon,
                Symbol::Entries,
            ])
        } else {
            Ok(false)
        }
    }

    pub fn take_behind_item_name(&mut self, kind: &TokenKind) -> Result<bool, NoMemory>
        requires { machine.weight self.old ≤ most_weight }
        ensures { IfOk result (λ taken. WasTaken (machine.takes symbols.BehindItemName kind.now) taken self.old self.new) }
    {
        if is_mark(kind, Mark::OpenParenthesis) {
            self.push_all(&[
                Symbol::FormalsIfAny,
                Symbol::CloseParenthesis,
                Symbol::ABlock,
            ])
        } else if is_mark(kind, Mark::OpenBracket) {
            self.push_all(&[
                Symbol::ANumber,
                Symbol::CloseBracket,
                Symbol::MoreNames,
                Symbol::Semicolon,
            ])
        } else if is_mark(kind, Mark::Comma) {
            self.push_all(&[
                Symbol::AName,
                Symbol::DimensionIfAny,
                Symbol::MoreNames,
                Symbol::Semicolon,
            ])
        } else if is_mark(kind, Mark::Semicolon) {
            Ok(true)
        } else {
            Ok(false)
        }
    }

    pub fn take_block_rest(&mut self, kind: &TokenKind) -> Result<bool, NoMemory>
        requires { machine.weight self.old ≤ most_weight }
        ensures { IfOk result (λ taken. WasTaken (machine.takes symbols.BlockRest kind.now) taken self.old self.new) }
    {
        if is_mark(kind, Mark::CloseBrace) {
            Ok(true)
        } else if is_mark(kind, Mark::OpenBrace) {
            self.push_all(&[Symbol::BlockRest, Symbol::BlockRest])
        } else if is_basic_type(kind) {
            self.push_all(&[
                Symbol::AName,
                Symbol::DeclaratorEnd,
                Symbol::MoreDeclarators,
                Symbol::Semicolon,
                Symbol::BlockRest,
            ])
        } else if is_name(kind) {
            self.push_all(&[Symbol::StatementName, Symbol::BlockRest])
        } else if is_keyword(kind, Keyword::Own) {
            self.push_all(&[
                Symbol::Dot,
                Symbol::AName,
                Symbol::OpenFlows,
                Symbol::Semicolon,
                Symbol::BlockRest,
            ])
        } else if is_keyword(kind, Keyword::If) {
            self.push_all(&[
                Symbol::OpenTest,
                Symbol::AStatement,
                Symbol::ElseIfAny,
                Symbol::BlockRest,
            ])
        } else if is_keyword(kind, Keyword::While) {
            self.push_all(&[
                Symbol::OpenTest,
                Symbol::AStatement,
                Symbol::WordEnd,
                Symbol::BlockRest,
            ])
        } else if is_keyword(kind, Keyword::For) {
            self.push_all(&[
                Symbol::OpenFor,
                Symbol::AStatement,
                Symbol::WordEnd,
                Symbol::BlockRest,
            ])
        } else if is_keyword(kind, Keyword::Print) {
            self.push_all(&[Symbol::OpenPrint, Symbol::Semicolon, Symbol::BlockRest])
        } else if is_keyword(kind, Keyword::Rtf) {
            self.push_all(&[Symbol::OpenFlow, Symbol::Semicolon, Symbol::BlockRest])
        } else if is_keyword(kind, Keyword::Return) {
            self.push_all(&[
                Symbol::ExpressionIfAny,
                Symbol::Semicolon,
                Symbol::BlockRest,
            ])
        } else if is_mark(kind, Mark::Semicolon) {
            self.push_all(&[Symbol::BlockRest])
        } else {
            Ok(false)
        }
    }

    pub fn take_statement(&mut self, kind: &TokenKind) -> Result<bool, NoMemory>
        requires { machine.weight self.old ≤ most_weight }
        ensures { IfOk result (λ taken. WasTaken (machine.takes symbols.AStatement kind.now) taken self.old self.new) }
    {
        if is_mark(kind, Mark::OpenBrace) {
            self.push_all(&[Symbol::BlockRest])
        } else if is_basic_type(kind) {
            self.push_all(&[
                Symbol::AName,
                Symbol::DeclaratorEnd,
                Symbol::MoreDeclarators,
                Symbol::Semicolon,
            ])
        } else if is_name(kind) {
            self.push_all(&[Symbol::StatementName])
        } else if is_keyword(kind, Keyword::Own) {
            self.push_all(&[
                Symbol::Dot,
                Symbol::AName,
                Symbol::OpenFlows,
                Symbol::Semicolon,
            ])
        } else if is_keyword(kind, Keyword::If) {
            self.push_all(&[Symbol::OpenTest, Symbol::AStatement, Symbol::ElseIfAny])
        } else if is_keyword(kind, Keyword::While) {
            self.push_all(&[Symbol::OpenTest, Symbol::AStatement, Symbol::WordEnd])
        } else if is_keyword(kind, Keyword::For) {
            self.push_all(&[Symbol::OpenFor, Symbol::AStatement, Symbol::WordEnd])
        } else if is_keyword(kind, Keyword::Print) {
            self.push_all(&[Symbol::OpenPrint, Symbol::Semicolon])
        } else if is_keyword(kind, Keyword::Rtf) {
            self.push_all(&[Symbol::OpenFlow, Symbol::Semicolon])
        } else if is_keyword(kind, Keyword::Return) {
            self.push_all(&[Symbol::ExpressionIfAny, Symbol::Semicolon])
        } else if is_mark(kind, Mark::Semicolon) {
            Ok(true)
        } else {
            Ok(false)
        }
    }

    pub fn take_statement_name(&mut self, kind: &TokenKind) -> Result<bool, NoMemory>
        requires { machine.weight self.old ≤ most_weight }
        ensures { IfOk result (λ taken. WasTaken (machine.takes symbols.StatementName kind.now) taken self.old self.new) }
    {
        if is_name(kind) {
            self.push_all(&[
                Symbol::DeclaratorEnd,
                Symbol::MoreDeclarators,
                Symbol::Semicolon,
            ])
        } else if is_mark(kind, Mark::Dot) {
            self.push_all(&[Symbol::StatementDot])
        } else if is_mark(kind, Mark::Assign) {
            self.push_all(&[Symbol::AFlow, Symbol::Semicolon])
        } else if is_mark(kind, Mark::OpenBracket) {
            self.push_all(&[
                Symbol::Operand(0),
                Symbol::CloseBracket,
                Symbol::Assign,
                Symbol::AFlow,
                Symbol::Semicolon,
            ])
        } else {
            Ok(false)
        }
    }

    pub fn take_statement_dot(&mut self, kind: &TokenKind) -> Result<bool, NoMemory>
        requires { machine.weight self.old ≤ most_weight }
        ensures { IfOk result (λ taken. WasTaken (machine.takes symbols.StatementDot kind.now) taken self.old self.new) }
    {
        if is_name(kind) {
            self.push_all(&[Symbol::StatementField])
        } else if is_keyword(kind, Keyword::Create) {
            self.push_all(&[Symbol::OpenNothing, Symbol::Semicolon])
        } else {
            Ok(false)
        }
    }

    pub fn take_statement_field(&mut self, kind: &TokenKind) -> Result<bool, NoMemory>
        requires { machine.weight self.old ≤ most_weight }
        ensures { IfOk result (λ taken. WasTaken (machine.takes symbols.StatementField kind.now) taken self.old self.new) }
    {
        if is_mark(kind, Mark::OpenParenthesis) {
            self.push_all(&[
                Symbol::FlowsIfAny,
                Symbol::CloseParenthesis,
                Symbol::Semicolon,
            ])
        } else if is_mark(kind, Mark::Dot) {
            self.push_all(&[Symbol::StatementFieldDot])
        } else if is_mark(kind, Mark::Assign) {
            self.push_all(&[Symbol::AFlow, Symbol::Semicolon])
        } else if is_mark(kind, Mark::OpenBracket) {
            self.push_all(&[
                Symbol::Operand(0),
                Symbol::CloseBracket,
                Symbol::Assign,
                Symbol::AFlow,
                Symbol::Semicolon,
            ])
        } else {
            Ok(false)
        }
    }

    pub fn take_statement_field_dot(&mut self, kind: &TokenKind) -> Result<bool, NoMemory>
        requires { machine.weight self.old ≤ most_weight }
        ensures { IfOk result (λ taken. WasTaken (machine.takes symbols.StatementFieldDot kind.now) taken self.old self.new) }
    {
        if is_name(kind) {
            self.push_all(&[Symbol::OpenFlows, Symbol::Semicolon])
        } else if is_keyword(kind, Keyword::Create) {
            self.push_all(&[Symbol::OpenNothing, Symbol::Semicolon])
        } else {
            Ok(false)
        }
    }

    pub fn take_declarator_end(&mut self, kind: &TokenKind) -> Result<bool, NoMemory>
        requires { machine.weight self.old ≤ most_weight }
        ensures { IfOk result (λ taken. WasTaken (machine.takes symbols.DeclaratorEnd kind.now) taken self.old self.new) }
    {
        if is_mark(kind, Mark::OpenBracket) {
            self.push_all(&[Symbol::ANumber, Symbol::CloseBracket])
        } else if is_mark(kind, Mark::Assign) {
            self.push_all(&[Symbol::AFlow])
        } else {
            Ok(false)
        }
    }

    pub fn take_for_start(&mut self, kind: &TokenKind) -> Result<bool, NoMemory>
        requires { machine.weight self.old ≤ most_weight }
        ensures { IfOk result (λ taken. WasTaken (machine.takes symbols.ForStart kind.now) taken self.old self.new) }
    {
        if is_basic_type(kind) {
            self.push_all(&[
                Symbol::AName,
                Symbol::DeclaratorEnd,
                Symbol::MoreDeclarators,
            ])
        } else if is_name(kind) {
            self.push_all(&[Symbol::ForName])
        } else {
            Ok(false)
        }
    }

    pub fn take_for_name(&mut self, kind: &TokenKind) -> Result<bool, NoMemory>
        requires { machine.weight self.old ≤ most_weight }
        ensures { IfOk result (λ taken. WasTaken (machine.takes symbols.ForName kind.now) taken self.old self.new) }
    {
        if is_name(kind) {
            self.push_all(&[Symbol::DeclaratorEnd, Symbol::MoreDeclarators])
        } else if is_mark(kind, Mark::Dot) {
            self.push_all(&[Symbol::AName, Symbol::AssignedField])
        } else if is_mark(kind, Mark::Assign) {
            self.push_all(&[Symbol::AFlow])
        } else if is_mark(kind, Mark::OpenBracket) {
            self.push_all(&[
                Symbol::Operand(0),
                Symbol::CloseBracket,
                Symbol::Assign,
                Symbol::AFlow,
            ])
        } else {
            Ok(false)
        }
    }

    pub fn take_assigned_name(&mut self, kind: &TokenKind) -> Result<bool, NoMemory>
        requires { machine.weight self.old ≤ most_weight }
        ensures { IfOk result (λ taken. WasTaken (machine.takes symbols.AssignedName kind.now) taken self.old self.new) }
    {
        if is_mark(kind, Mark::Dot) {
            self.push_all(&[Symbol::AName, Symbol::AssignedField])
        } else if is_mark(kind, Mark::Assign) {
            self.push_all(&[Symbol::AFlow])
        } else if is_mark(kind, Mark::OpenBracket) {
            self.push_all(&[
                Symbol::Operand(0),
                Symbol::CloseBracket,
                Symbol::Assign,
                Symbol::AFlow,
            ])
        } else {
            Ok(false)
        }
    }

    pub fn take_assigned_field(&mut self, kind: &TokenKind) -> Result<bool, NoMemory>
        requires { machine.weight self.old ≤ most_weight }
        ensures { IfOk result (λ taken. WasTaken (machine.takes symbols.AssignedField kind.now) taken self.old self.new) }
    {
        if is_mark(kind, Mark::Assign) {
            self.push_all(&[Symbol::AFlow])
        } else if is_mark(kind, Mark::OpenBracket) {
            self.push_all(&[
                Symbol::Operand(0),
                Symbol::CloseBracket,
                Symbol::Assign,
                Symbol::AFlow,
            ])
        } else {
            Ok(false)
        }
    }

    pub fn take_flow(&mut self, kind: &TokenKind) -> Result<bool, NoMemory>
        requires { machine.weight self.old ≤ most_weight }
        ensures { IfOk result (λ taken. WasTaken (machine.takes symbols.AFlow kind.now) taken self.old self.new) }
    {
        if is_name(kind) {
            self.push_all(&[Symbol::FlowName])
        } else if is_keyword(kind, Keyword::Own) {
            self.push_all(&[Symbol::FlowOwn])
        } else if is_constant(kind) {
            self.push_all(&[Symbol::Operators(0)])
        } else if is_keyword(kind, Keyword::Input) {
            self.push_all(&[Symbol::OpenNothing, Symbol::Operators(0)])
        } else if is_mark(kind, Mark::OpenParenthesis) {
            self.push_all(&[
                Symbol::Operand(0),
                Symbol::CloseParenthesis,
                Symbol::Operators(0),
            ])
        } else if is_unary(kind) {
            self.push_all(&[Symbol::Operand(1)])
        } else {
            Ok(false)
        }
    }

    pub fn take_flow_own(&mut self, kind: &TokenKind) -> Result<bool, NoMemory>
        requires { machine.weight self.old ≤ most_weight }
        ensures { IfOk result (λ taken. WasTaken (machine.takes symbols.FlowOwn kind.now) taken self.old self.new) }
    {
        if is_mark(kind, Mark::Dot) {
            self.push_all(&[Symbol::AName, Symbol::OpenFlows])
        } else if is_operator(kind) {
            self.push_all(&[Symbol::Operand(1)])
        } else {
            Ok(false)
        }
    }

    pub fn take_flow_name(&mut self, kind: &TokenKind) -> Result<bool, NoMemory>
        requires { machine.weight self.old ≤ most_weight }
        ensures { IfOk result (λ taken. WasTaken (machine.takes symbols.FlowName kind.now) taken self.old self.new) }
    {
        if is_mark(kind, Mark::OpenParenthesis) {
            self.push_all(&[
                Symbol::ExpressionsIfAny,
                Symbol::CloseParenthesis,
                Symbol::Operators(0),
            ])
        } else if is_mark(kind, Mark::OpenBracket) {
            self.push_all(&[
                Symbol::Operand(0),
                Symbol::CloseBracket,
                Symbol::Operators(0),
            ])
        } else if is_mark(kind, Mark::Dot) {
            self.push_all(&[Symbol::AName, Symbol::FlowField])
        } else if is_operator(kind) {
            self.push_all(&[Symbol::Operand(1)])
        } else {
            Ok(false)
        }
    }

    pub fn take_flow_field(&mut self, kind: &TokenKind) -> Result<bool, NoMemory>
        requires { machine.weight self.old ≤ most_weight }
        ensures { IfOk result (λ taken. WasTaken (machine.takes symbols.FlowField kind.now) taken self.old self.new) }
    {
        if is_mark(kind, Mark::OpenParenthesis) {
            self.push_all(&[Symbol::FlowsIfAny, Symbol::CloseParenthesis])
        } else if is_mark(kind, Mark::Dot) {
            self.push_all(&[Symbol::AName, Symbol::OpenFlows])
        } else if is_mark(kind, Mark::OpenBracket) {
            self.push_all(&[
                Symbol::Operand(0),
                Symbol::CloseBracket,
                Symbol::Operators(0),
            ])
        } else if is_operator(kind) {
            self.push_all(&[Symbol::Operand(1)])
        } else {
            Ok(false)
        }
    }

    pub fn take_flows(&mut self, kind: &TokenKind) -> Result<bool, NoMemory>
        requires { machine.weight self.old ≤ most_weight }
        ensures { IfOk result (λ taken. WasTaken (machine.takes symbols.FlowsIfAny kind.now) taken self.old self.new) }
    {
        if is_name(kind) {
            self.push_all(&[Symbol::FlowName, Symbol::MoreFlows])
        } else if is_keyword(kind, Keyword::Own) {
            self.push_all(&[Symbol::FlowOwn, Symbol::MoreFlows])
        } else if is_constant(kind) {
            self.push_all(&[Symbol::Operators(0), Symbol::MoreFlows])
        } else if is_keyword(kind, Keyword::Input) {
            self.push_all(&[Symbol::OpenNothing, Symbol::Operators(0), Symbol::MoreFlows])
        } else if is_mark(kind, Mark::OpenParenthesis) {
            self.push_all(&[
                Symbol::Operand(0),
                Symbol::CloseParenthesis,
                Symbol::Operators(0),
                Symbol::MoreFlows,
            ])
        } else if is_unary(kind) {
            self.push_all(&[Symbol::Operand(1), Symbol::MoreFlows])
        } else {
            Ok(false)
        }
    }

    pub fn take_expression_if_any(&mut self, kind: &TokenKind) -> Result<bool, NoMemory>
        requires { machine.weight self.old ≤ most_weight }
        ensures { IfOk result (λ taken. WasTaken (machine.takes symbols.ExpressionIfAny kind.now) taken self.old self.new) }
    {
        if is_name(kind) {
            self.push_all(&[Symbol::OperandName, Symbol::Operators(0)])
        } else if is_keyword(kind, Keyword::Own) {
            self.push_all(&[Symbol::Operators(0)])
        } else if is_constant(kind) {
            self.push_all(&[Symbol::Operators(0)])
        } else if is_keyword(kind, Keyword::Input) {
            self.push_all(&[Symbol::OpenNothing, Symbol::Operators(0)])
        } else if is_mark(kind, Mark::OpenParenthesis) {
            self.push_all(&[
                Symbol::Operand(0),
                Symbol::CloseParenthesis,
                Symbol::Operators(0),
            ])
        } else if is_unary(kind) {
            self.push_all(&[Symbol::Operand(1)])
        } else {
            Ok(false)
        }
    }

    pub fn take_expressions(&mut self, kind: &TokenKind) -> Result<bool, NoMemory>
        requires { machine.weight self.old ≤ most_weight }
        ensures { IfOk result (λ taken. WasTaken (machine.takes symbols.ExpressionsIfAny kind.now) taken self.old self.new) }
    {
        if is_name(kind) {
            self.push_all(&[
                Symbol::OperandName,
                Symbol::Operators(0),
                Symbol::MoreExpressions,
            ])
        } else if is_keyword(kind, Keyword::Own) {
            self.push_all(&[Symbol::Operators(0), Symbol::MoreExpressions])
        } else if is_constant(kind) {
            self.push_all(&[Symbol::Operators(0), Symbol::MoreExpressions])
        } else if is_keyword(kind, Keyword::Input) {
            self.push_all(&[
                Symbol::OpenNothing,
                Symbol::Operators(0),
                Symbol::MoreExpressions,
            ])
        } else if is_mark(kind, Mark::OpenParenthesis) {
            self.push_all(&[
                Symbol::Operand(0),
                Symbol::CloseParenthesis,
                Symbol::Operators(0),
                Symbol::MoreExpressions,
            ])
        } else if is_unary(kind) {
            self.push_all(&[Symbol::Operand(1), Symbol::MoreExpressions])
        } else {
            Ok(false)
        }
    }

    pub fn take_operand_name(&mut self, kind: &TokenKind) -> Result<bool, NoMemory>
        requires { machine.weight self.old ≤ most_weight }
        ensures { IfOk result (λ taken. WasTaken (machine.takes symbols.OperandName kind.now) taken self.old self.new) }
    {
        if is_mark(kind, Mark::OpenParenthesis) {
            self.push_all(&[Symbol::ExpressionsIfAny, Symbol::CloseParenthesis])
        } else if is_mark(kind, Mark::OpenBracket) {
            self.push_all(&[Symbol::Operand(0), Symbol::CloseBracket])
        } else if is_mark(kind, Mark::Dot) {
            self.push_all(&[Symbol::AName, Symbol::ElementIfAny])
        } else {
            Ok(false)
        }
    }

    pub fn take_operand(&mut self, operators: u32, kind: &TokenKind) -> Result<bool, NoMemory>
        requires { machine.weight self.old + operators ≤ most_weight }
        ensures { IfOk result (λ taken. WasTaken (machine.takes (symbols.Operand operators) kind.now) taken self.old self.new) }
    {
        if is_name(kind) {
            self.push_all(&[Symbol::OperandName, Symbol::Operators(operators)])
        } else if is_keyword(kind, Keyword::Own) {
            self.push_all(&[Symbol::Operators(operators)])
        } else if is_constant(kind) {
            self.push_all(&[Symbol::Operators(operators)])
        } else if is_keyword(kind, Keyword::Input) {
            self.push_all(&[Symbol::OpenNothing, Symbol::Operators(operators)])
        } else if is_mark(kind, Mark::OpenParenthesis) {
            self.push_all(&[
                Symbol::Operand(0),
                Symbol::CloseParenthesis,
                Symbol::Operators(operators),
            ])
        } else if is_unary(kind) {
            self.push_all(&[Symbol::Operand(operators + 1)])
        } else {
            Ok(false)
        }
    }

    /// A token between two declarations.
    pub fn take_declaration(&mut self, kind: &TokenKind) -> Result<bool, NoMemory>
        requires { machine.weight self.old ≤ most_weight }
        ensures { IfOk result (λ taken. WasTaken (machine.found grammar.declaration_rows kind.now) taken self.old self.new) }
    {
        if is_keyword(kind, Keyword::Struct) {
            self.push_all(&[Symbol::AName, Symbol::OpenFields, Symbol::Semicolon])
        } else if is_class_kind(kind) {
            self.push_all(&[
                Symbol::MentatWord,
                Symbol::ClassWord,
                Symbol::AName,
                Symbol::OpenItems,
                Symbol::Semicolon,
            ])
        } else if is_type(kind) {
            self.push_all(&[Symbol::AName, Symbol::OpenFormals, Symbol::ABlock])
        } else {
            Ok(false)
        }
    }
}

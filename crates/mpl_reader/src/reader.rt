ghost use Rattle.std.specs.Prelude.{◌≡◌, ◌+◌, ◌<◌, ◌∷◌, length, IfOk, OnOk, Err};
ghost use Rattle.mpl_mean.specs.Text.Reading as reading;
ghost use Rattle.mpl_trees.specs.Taking as spec;
ghost use Rattle.mpl_reader.specs.Reader.{Began, Skipped, Took, TookJoint, most_number, rest_of};

use crate::ahead::{level_of, sees_keyword, sees_mark};
use crate::stop::Stop;
use mpl_ast::token::{Keyword, Mark, Token, TokenKind};
use mpl_ast::{At, Name, Number, Span};
use mpl_trees::piece::{Sign, Start};
use std::alloc::Global;

/// A reader of tokens, which numbers the nodes of the tree.
#[derive(Drop)]
pub struct Reader<'a> {
    /// The tokens that are not read yet.
    pub left: &'a [Token],
    /// Where the last token that was read ends.
    pub last: u32,
    /// The number of the next node.
    pub next: u32,
}

/// An operator between operands.
#[derive(Clone, Copy)]
pub struct Joint {
    pub sign: Sign,
    pub level: u32,
}

impl<'a> Reader<'a> {
    fn take(&mut self) -> &'a Token
        requires { 0 < length self.old.left.now }
        ensures tokens { self.old.left.now ≡ result.now ∷ self.new.left.now }
        ensures last { self.new.last ≡ result.now.span.to }
        ensures next { self.new.next ≡ self.old.next }
    {
        let [token, left @ ..] = self.left else {
            unreachable!()
        };
        self.left = left;
        self.last = token.span.to;
        token
    }

    /// The line of the next token.
    pub fn line(&self) -> u32
        ensures { result ≡ spec.line_of self.now.left.now }
    {
        match self.left {
            [token, ..] => token.line,
            [] => 0,
        }
    }

    /// Where a node begins whose first token is the next.
    pub fn here(&self) -> Start
        ensures { result ≡ spec.start_of (rest_of self.now) }
    {
        let from = match self.left {
            [token, ..] => token.span.from,
            [] => 0,
        };
        Start {
            from,
            line: self.line(),
            id: self.next,
        }
    }

    /// So many numbers of nodes are given away.
    pub fn advance(&mut self, nodes: usize) -> Result<(), Stop>
        ensures { Skipped (spec.fitting most_number) (record (rest_of self.old) { next = self.old.next + nodes }) result (rest_of self.new) }
    {
        let Ok(nodes) = u32::try_from(nodes) else {
            return Err(Stop::Stuck);
        };
        let Some(next) = self.next.checked_add(nodes) else {
            return Err(Stop::Stuck);
        };
        self.next = next;
        Ok(())
    }

    /// Begins a node at the next token.
    pub fn start(&mut self) -> Result<Start, Stop>
        ensures { Began (rest_of self.old) result (rest_of self.new) }
    {
        let start = self.here();
        self.advance(1)?;
        Ok(start)
    }

    /// Where a node stands that ends with the last token.
    pub fn finish(&self, start: Start) -> At
        ensures { result ≡ spec.place start self.now.last }
    {
        At {
            span: Span {
                from: start.from,
                to: self.last,
            },
            line: start.line,
            id: start.id,
        }
    }

    /// Reads the mark.
    pub fn mark(&mut self, mark: Mark) -> Result<(), Stop>
        ensures { Skipped (reading.mark mark) (rest_of self.old) result (rest_of self.new) }
    {
        if !sees_mark(self.left, mark) {
            return Err(Stop::Stuck);
        }
        self.take();
        Ok(())
    }

    /// Reads the word.
    pub fn keyword(&mut self, keyword: Keyword) -> Result<(), Stop>
        ensures { Skipped (reading.keyword keyword) (rest_of self.old) result (rest_of self.new) }
    {
        if !sees_keyword(self.left, keyword) {
            return Err(Stop::Stuck);
        }
        self.take();
        Ok(())
    }

    /// Reads a name.
    pub fn name(&mut self, alloc: Global) -> Result<Name, Stop>
        ensures { Took spec.take_name (rest_of self.old) result (rest_of self.new) }
    {
        let [token, left @ ..] = self.left else {
            return Err(Stop::Stuck);
        };
        match &token.kind {
            TokenKind::Name(text) => {
                let text = text.copy()?;
                self.left = left;
                self.last = token.span.to;
                Ok(Name {
                    from: token.span.from,
                    text,
                })
            }
            _ => Err(Stop::Stuck),
        }
    }

    /// Reads a number.
    pub fn number(&mut self) -> Result<Number, Stop>
        ensures { Took spec.take_number (rest_of self.old) result (rest_of self.new) }
    {
        let [token, left @ ..] = self.left else {
            return Err(Stop::Stuck);
        };
        match token.kind {
            TokenKind::Number(value) => {
                self.left = left;
                self.last = token.span.to;
                Ok(Number {
                    from: token.span.from,
                    value,
                })
            }
            _ => Err(Stop::Stuck),
        }
    }

    /// Reads an operator between operands, if there is one.
    pub fn joint(&mut self) -> Option<Joint>
        ensures { TookJoint (rest_of self.old) result (rest_of self.new) }
    {
        let [token, left @ ..] = self.left else {
            return None;
        };
        let TokenKind::Mark(mark) = token.kind else {
            return None;
        };
        let level = level_of(mark)?;
        self.left = left;
        self.last = token.span.to;
        let line = token.line;
        Some(Joint {
            sign: Sign { line, mark },
            level,
        })
    }
}

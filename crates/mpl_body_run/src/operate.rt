ghost use Rattle.std.specs.Prelude.{◌≡◌, ◌+◌, ◌-◌, ◌<◌, ◌^◌, ◌∷◌, [], length, pos, ℕ, Some, None, MatchOption};
ghost use Rattle.std.specs.List.{slice_index_or};
ghost use Rattle.mpl_value.specs.Words.{index_below};
ghost use Rattle.mpl_mean.specs.Meaning.ExpressionMeaning.{equality_test, relation_test};
ghost use Rattle.mpl_mean.specs.Meaning.Values.{int_value, word_of};
ghost use Rattle.mpl_body_code.specs.Machine.{Setting, words_item};
ghost use Rattle.mpl_body_run.specs.Seen.{Came, machine_seen};
ghost use Rattle.mpl_body_code.specs.Steps.{computes, indexed, on_value, onward, operates, operates_alone, performs};
ghost use Rattle.mpl_body_code.specs.declared.instruction.Instruction.TheVariants as instruction;

use crate::leaves::Leaves;
use crate::machine::Machine;
use crate::perform::{first_word, trap};
use crate::stack::Holds;
use mpl_ast::expression::{
    EqualityOperator, RelationOperator, SumOperator, TermOperator, UnaryOperator,
};
use mpl_body_code::Operator;
use mpl_value::{BodyEnd, TrapKind, add, div, mul, neg, rem, sub};

impl Machine {
    /// A number that arithmetic gives, or its trap.
    #[inline(always)]
    fn computed(&mut self, line: u32, outcome: Result<i64, TrapKind>) -> Result<(), Leaves>
        requires { self.old.frame.place < 2 ^ 64 - 1 }
        ensures { Came (computes (machine_seen self.old) line outcome self.old.frame.stack) (machine_seen self.new) result }
    {
        match outcome {
            Ok(number) => self.onward(Holds::Word(number, false)),
            Err(kind) => Err(trap(kind, line)),
        }
    }

    #[inline(always)]
    fn operate(&mut self, line: u32, operator: Operator, a: i64, b: i64) -> Result<(), Leaves>
        requires { self.old.frame.place < 2 ^ 64 - 1 }
        ensures { Came (operates (machine_seen self.old) line operator a b self.old.frame.stack) (machine_seen self.new) result }
    {
        match operator {
            Operator::Equate(operator) => {
                let test = is_equal(operator, a, b);
                self.onward(Holds::Word(test as i64, true))
            }
            Operator::Compare(operator) => {
                let test = is_related(operator, a, b);
                self.onward(Holds::Word(test as i64, true))
            }
            Operator::Add(SumOperator::Plus) => self.computed(line, add(a, b)),
            Operator::Add(SumOperator::Minus) => self.computed(line, sub(a, b)),
            Operator::Multiply(TermOperator::Times) => self.computed(line, mul(a, b)),
            Operator::Multiply(TermOperator::Over) => self.computed(line, div(a, b)),
            Operator::Multiply(TermOperator::Modulo) => self.computed(line, rem(a, b)),
        }
    }

    /// The left operand lies below.
    #[inline(always)]
    fn operate_on(&mut self, line: u32, operator: Operator, b: i64) -> Result<(), Leaves>
        requires { self.old.frame.place < 2 ^ 64 - 1 }
        ensures { Came (on_value (machine_seen self.old) self.old.frame.stack (λ a below. operates (machine_seen self.old) line operator (word_of a) b below)) (machine_seen self.new) result }
    {
        match self.frame.stack.pop() {
            Some(Holds::Word(a, _)) => self.operate(line, operator, a, b),
            Some(Holds::Words(a, _)) => {
                let a = first_word(a.as_ref());
                self.operate(line, operator, a, b)
            }
            Some(Holds::Trapped(_)) => Err(Leaves::Ends(BodyEnd::Waits)),
            Some(Holds::Unknown) => Err(Leaves::Ends(BodyEnd::Waits)),
            None => Err(Leaves::Ends(BodyEnd::Waits)),
        }
    }

    #[inline(always)]
    pub fn binary(&mut self, line: u32, operator: Operator) -> Result<(), Leaves>
        requires { self.old.frame.place < 2 ^ 64 - 1 }
        ensures { (S : Setting) → Came (performs S (instruction.Binary line operator) (machine_seen self.old)) (machine_seen self.new) result }
    {
        match self.frame.stack.pop() {
            Some(Holds::Word(b, _)) => self.operate_on(line, operator, b),
            Some(Holds::Words(b, _)) => {
                let b = first_word(b.as_ref());
                self.operate_on(line, operator, b)
            }
            Some(Holds::Trapped(_)) => Err(Leaves::Ends(BodyEnd::Waits)),
            Some(Holds::Unknown) => Err(Leaves::Ends(BodyEnd::Waits)),
            None => Err(Leaves::Ends(BodyEnd::Waits)),
        }
    }

    fn operate_alone(&mut self, line: u32, operator: UnaryOperator, a: i64) -> Result<(), Leaves>
        requires { self.old.frame.place < 2 ^ 64 - 1 }
        ensures { Came (operates_alone (machine_seen self.old) line operator (int_value a) self.old.frame.stack) (machine_seen self.new) result }
    {
        match operator {
            UnaryOperator::Negative => self.computed(line, neg(a)),
            UnaryOperator::Not => self.onward(Holds::Word((a == 0) as i64, true)),
        }
    }

    pub fn unary(&mut self, line: u32, operator: UnaryOperator) -> Result<(), Leaves>
        requires { self.old.frame.place < 2 ^ 64 - 1 }
        ensures { (S : Setting) → Came (performs S (instruction.Unary line operator) (machine_seen self.old)) (machine_seen self.new) result }
    {
        match self.frame.stack.pop() {
            Some(Holds::Word(a, _)) => self.operate_alone(line, operator, a),
            Some(Holds::Words(a, _)) => {
                let a = first_word(a.as_ref());
                self.operate_alone(line, operator, a)
            }
            Some(Holds::Trapped(_)) => Err(Leaves::Ends(BodyEnd::Waits)),
            Some(Holds::Unknown) => Err(Leaves::Ends(BodyEnd::Waits)),
            None => Err(Leaves::Ends(BodyEnd::Waits)),
        }
    }

    /// The array lies below its index.
    #[inline(never)]
    fn index_at(&mut self, line: u32, i: i64) -> Result<(), Leaves>
        requires { self.old.frame.place < 2 ^ 64 - 1 }
        ensures { Came (on_value (machine_seen self.old) self.old.frame.stack (λ a below. indexed (machine_seen self.old) line (index_below (length a.words) i) (λ n. onward (machine_seen self.old) (words_item (slice_index_or a.words n (pos 0) ∷ []) a.is_bool ∷ below)))) (machine_seen self.new) result }
    {
        match self.frame.stack.pop() {
            Some(Holds::Word(word, is_bool)) => {
                if i == 0 {
                    self.onward(Holds::Word(word, is_bool))
                } else {
                    Err(trap(TrapKind::Index, line))
                }
            }
            Some(Holds::Words(words, is_bool)) => match element(words.as_ref().as_slice(), i) {
                Some(word) => self.onward(Holds::Word(word, is_bool)),
                None => Err(trap(TrapKind::Index, line)),
            },
            Some(Holds::Trapped(_)) => Err(Leaves::Ends(BodyEnd::Waits)),
            Some(Holds::Unknown) => Err(Leaves::Ends(BodyEnd::Waits)),
            None => Err(Leaves::Ends(BodyEnd::Waits)),
        }
    }

    pub fn index(&mut self, line: u32) -> Result<(), Leaves>
        requires { self.old.frame.place < 2 ^ 64 - 1 }
        ensures { (S : Setting) → Came (performs S (instruction.Index line) (machine_seen self.old)) (machine_seen self.new) result }
    {
        match self.frame.stack.pop() {
            Some(Holds::Word(i, _)) => self.index_at(line, i),
            Some(Holds::Words(i, _)) => {
                let i = first_word(i.as_ref());
                self.index_at(line, i)
            }
            Some(Holds::Trapped(_)) => Err(Leaves::Ends(BodyEnd::Waits)),
            Some(Holds::Unknown) => Err(Leaves::Ends(BodyEnd::Waits)),
            None => Err(Leaves::Ends(BodyEnd::Waits)),
        }
    }
}

#[inline(always)]
fn is_equal(operator: EqualityOperator, a: i64, b: i64) -> bool
    ensures { result ≡ equality_test operator a b }
{
    match operator {
        EqualityOperator::Equal => a == b,
        EqualityOperator::Unequal => a != b,
    }
}

#[inline(always)]
fn is_related(operator: RelationOperator, a: i64, b: i64) -> bool
    ensures { result ≡ relation_test operator a b }
{
    match operator {
        RelationOperator::Less => a < b,
        RelationOperator::LessEqual => a <= b,
        RelationOperator::Greater => a > b,
        RelationOperator::GreaterEqual => a >= b,
    }
}

/// The word at an index, if it is one of these words.
fn element(words: &[i64], i: i64) -> Option<i64>
    ensures { MatchOption result (index_below (length words.now) i ≡ None) (λ word. (n : ℕ) × (index_below (length words.now) i ≡ Some n) × (slice_index_or words.now n (pos 0) ≡ word)) }
{
    if i < 0 {
        return None;
    }
    words.get(i as usize).copied()
}

//! Facts: the range of an integer, or the first fault and the tenses of a formula.

ghost use Rattle.std.specs.Prelude.{◌≡◌, ◌||◌, ℕ, Bool, true, Some, Option as Maybe};
ghost use Rattle.mltl_base.specs.declared.operators.CompareOp.{CompareOp as Comparison};
ghost use Rattle.mltl_base.specs.declared.operators.LogicOp.{LogicOp as Connective};
ghost use Rattle.mltl_base.specs.declared.interval.Interval.{Interval};
ghost use Rattle.mltl_base.specs.Atoms.{column, constant, is_true, negative};
ghost use Rattle.mltl_base.specs.Formula.{atom, negation};
ghost use Rattle.mltl_base.specs.Ranges.{negated, over};
ghost use Rattle.c2po_ast.specs.Faults.{or_later, tree_fault, why_none};
ghost use Rattle.c2po_types.specs.Facts.{Tells, fact_view, fault_in, future_in, past_in, range_by, range_in, told_range, told_fault, whole, with_future, with_past};
ghost use Rattle.c2po_ast.specs.Nodes.{Tree, arithmetic, comparison, connected, constant_formula, formula, formula_in, number, ranged, term_in, windowed};

use mltl_base::range::{self, NoRange, Range};
use mltl_base::{ArithOp, BetweenOp, WindowOp};

/// The tenses of the operators in a formula.
#[derive(Clone, Copy)]
pub enum Tenses {
    None,
    Past,
    Future,
    Both,
}

impl Tenses {
    /// Returns `true` if there are operators of the past.
    #[inline(always)]
    pub fn has_past(self) -> bool
        ensures { result ≡ with_past self }
    {
        matches!(self, Tenses::Past | Tenses::Both)
    }

    /// Returns `true` if there are operators of the future.
    #[inline(always)]
    pub fn has_future(self) -> bool
        ensures { result ≡ with_future self }
    {
        matches!(self, Tenses::Future | Tenses::Both)
    }

    /// Returns `true` if both have the same tenses.
    #[inline(always)]
    fn is(self, other: Tenses) -> bool
        ensures { result ≡ true → self ≡ other }
    {
        match (self, other) {
            (Tenses::None, Tenses::None)
            | (Tenses::Past, Tenses::Past)
            | (Tenses::Future, Tenses::Future)
            | (Tenses::Both, Tenses::Both) => true,
            _ => false,
        }
    }

    /// Returns the tenses of two formulas together.
    #[inline(always)]
    fn or(self, other: Tenses) -> Tenses
        ensures past { with_past result ≡ (with_past self || with_past other) }
        ensures future { with_future result ≡ (with_future self || with_future other) }
    {
        match other {
            Tenses::None => self,
            Tenses::Past => self.and_past(),
            Tenses::Future => self.and_future(),
            Tenses::Both => Tenses::Both,
        }
    }

    /// Returns these tenses with the past.
    #[inline(always)]
    fn and_past(self) -> Tenses
        ensures past { with_past result ≡ true }
        ensures future { with_future result ≡ with_future self }
    {
        match self {
            Tenses::None | Tenses::Past => Tenses::Past,
            Tenses::Future | Tenses::Both => Tenses::Both,
        }
    }

    /// Returns these tenses with the future.
    #[inline(always)]
    fn and_future(self) -> Tenses
        ensures past { with_past result ≡ with_past self }
        ensures future { with_future result ≡ true }
    {
        match self {
            Tenses::None | Tenses::Future => Tenses::Future,
            Tenses::Past | Tenses::Both => Tenses::Both,
        }
    }
}

/// A fact of a value: the range of an integer or the reason why it has none, or the first fault and
/// the tenses of a formula.
#[derive(Clone, Copy)]
pub enum Fact {
    Number(Range),
    NoNumber(NoRange),
    Formula(Option<NoRange>, Tenses),
    /// A struct's value or a set, whose parts have facts of their own.
    Parts,
}

/// Returns the range of an operand, or the range of 0 if it isn't an integer.
fn range_of(fact: &Fact) -> Result<Range, NoRange>
    ensures { told_range result ≡ range_in (fact_view fact.now) }
{
    match fact {
        Fact::Number(range) => Ok(*range),
        Fact::NoNumber(why) => Err(*why),
        Fact::Formula(..) | Fact::Parts => Ok(range::constant(0)),
    }
}

/// Returns the first fault of an operand, or `None` if it isn't a formula.
pub fn fault_of(fact: &Fact) -> Option<NoRange>
    ensures { told_fault result ≡ fault_in (fact_view fact.now) }
{
    match fact {
        Fact::Formula(fault, _) => *fault,
        Fact::Number(_) | Fact::NoNumber(_) | Fact::Parts => None,
    }
}

/// Returns the tenses of an operand, or `Tenses::None` if it isn't a formula.
pub fn tenses_of(fact: &Fact) -> Tenses
    ensures past { with_past result ≡ past_in (fact_view fact.now) }
    ensures future { with_future result ≡ future_in (fact_view fact.now) }
{
    match fact {
        Fact::Formula(_, tenses) => *tenses,
        Fact::Number(_) | Fact::NoNumber(_) | Fact::Parts => Tenses::None,
    }
}

/// Returns the fact of an integer with this range.
fn number_fact(range: Result<Range, NoRange>) -> Fact
    ensures { fact_view result ≡ Some (whole (told_range range)) }
{
    match range {
        Ok(range) => Fact::Number(range),
        Err(why) => Fact::NoNumber(why),
    }
}

/// Returns the range of the negative of an integer, or the reason why the integer has no range.
fn negated_range(a: Result<Range, NoRange>) -> Result<Range, NoRange>
    ensures { told_range result ≡ over negated (told_range a) }
{
    range::negation(a?)
}

/// Returns the range of an operation on two integers, or the first reason why there is none, left
/// operand first.
fn computed_range(
    op: ArithOp,
    a: Result<Range, NoRange>,
    b: Result<Range, NoRange>,
) -> Result<Range, NoRange>
    ensures { told_range result ≡ range_by op (told_range a) (told_range b) }
{
    let a = a?;
    let b = b?;
    match op {
        ArithOp::Add => range::sum(a, b),
        ArithOp::Sub => range::difference(a, b),
        ArithOp::Mul => range::product(a, b),
        ArithOp::Div => range::quotient(a, b),
        ArithOp::Rem => range::remainder(a, b),
    }
}

/// Returns the reason why an integer has no range, if it has none.
fn why_none_of(range: Result<Range, NoRange>) -> Option<NoRange>
    ensures { told_fault result ≡ why_none (told_range range) }
{
    range.err()
}

/// Returns the left fault, or the right fault if there is no left fault.
pub fn first_fault(left: Option<NoRange>, right: Option<NoRange>) -> Option<NoRange>
    ensures { told_fault result ≡ or_later (told_fault left) (told_fault right) }
{
    left.or(right)
}

/// Returns `true` if two ranges are the same.
fn are_same(a: Range, b: Range) -> bool
    ensures { result ≡ true → a ≡ b }
{
    a.least() == b.least() && a.greatest() == b.greatest()
}

impl Fact {
    /// Returns `true` if this is the same fact of an integer with a range, or of a formula without
    /// a fault.
    pub(crate) fn is(&self, other: &Fact) -> bool
        ensures { result ≡ true → self.now ≡ other.now }
    {
        match (self, other) {
            (Fact::Formula(None, own), Fact::Formula(None, tenses)) => own.is(*tenses),
            (Fact::Number(own), Fact::Number(range)) => are_same(*own, *range),
            _ => false,
        }
    }

    /// Returns the fault of an integer or of a formula.
    pub fn fault(&self) -> Option<NoRange>
        ensures { (t : Tree) → Tells self.now (Some t) → told_fault result ≡ tree_fault t }
    {
        match self {
            Fact::NoNumber(why) => Some(*why),
            Fact::Formula(fault, _) => *fault,
            Fact::Number(_) | Fact::Parts => None,
        }
    }

    /// Returns the fact of a Boolean or of a Boolean signal.
    #[tactic(auto, using(crate::proofs::Knowing::known_truth, crate::proofs::Knowing::known_flag))]
    pub fn truth() -> Fact
        ensures truth { (b : Bool) → Tells result (Some (formula (constant_formula b))) }
        ensures signal { (n : ℕ) → Tells result (Some (formula (atom (is_true n)))) }
    {
        Fact::Formula(None, Tenses::None)
    }

    /// Returns the fact of a number.
    #[tactic(auto, unfolding(mltl_base::specs::Ranges::range))]
    pub fn constant(n: i64) -> Fact
        ensures { Tells result (Some (number (constant n))) }
    {
        Fact::Number(range::constant(n))
    }

    /// Returns the fact of an integer signal.
    #[tactic(auto, unfolding(mltl_base::specs::Ranges::range))]
    pub fn signal() -> Fact
        ensures { (n : ℕ) → Tells result (Some (number (column n))) }
    {
        Fact::Number(range::signal())
    }

    /// Returns the fact of an operand that is taken as a formula.
    pub fn formula(a: &Fact) -> Fact
        ensures { (o : Maybe Tree) → Tells a.now o
            → Tells result (Some (formula (formula_in o))) }
    {
        let fault = fault_of(a);
        let tenses = tenses_of(a);
        Fact::Formula(fault, tenses)
    }

    /// Returns the fact of a negation.
    #[tactic(auto, unfolding(c2po_ast::specs::Faults::formula_fault, c2po_ast::specs::Tenses::has_past, c2po_ast::specs::Tenses::has_future))]
    pub fn negation(a: &Fact) -> Fact
        ensures { (o : Maybe Tree) → Tells a.now o
            → Tells result (Some (formula (negation (formula_in o)))) }
    {
        Fact::formula(a)
    }

    /// Returns the fact of the negative of an integer.
    pub fn negative(a: &Fact) -> Fact
        ensures { (o : Maybe Tree) → Tells a.now o
            → Tells result (Some (number (negative (term_in o)))) }
    {
        let operand = range_of(a);
        let range = negated_range(operand);
        number_fact(range)
    }

    /// Returns the fact of an operation on two integers.
    pub fn computed(op: ArithOp, a: &Fact, b: &Fact) -> Fact
        ensures { (o q : Maybe Tree) → Tells a.now o → Tells b.now q
            → Tells result (Some (number (arithmetic op (term_in o) (term_in q)))) }
    {
        let left = range_of(a);
        let right = range_of(b);
        let range = computed_range(op, left, right);
        number_fact(range)
    }

    /// Returns the fact of a comparison of two integers.
    pub fn compared(a: &Fact, b: &Fact) -> Fact
        ensures { (op : Comparison) (o q : Maybe Tree) → Tells a.now o → Tells b.now q
            → Tells result (Some (formula (atom (comparison op (term_in o) (term_in q))))) }
    {
        let left = why_none_of(range_of(a));
        let right = why_none_of(range_of(b));
        let fault = first_fault(left, right);
        Fact::Formula(fault, Tenses::None)
    }

    /// Returns the fact of two formulas under a connective.
    pub fn joined(a: &Fact, b: &Fact) -> Fact
        ensures { (op : Connective) (o q : Maybe Tree) → Tells a.now o → Tells b.now q
            → Tells result (Some (formula (connected op (formula_in o) (formula_in q)))) }
    {
        let fault = first_fault(fault_of(a), fault_of(b));
        let tenses = tenses_of(a).or(tenses_of(b));
        Fact::Formula(fault, tenses)
    }

    /// Returns the fact of a formula under a temporal operator.
    pub fn windowed(op: WindowOp, a: &Fact) -> Fact
        ensures { (i : Interval) (o : Maybe Tree) → Tells a.now o
            → Tells result (Some (formula (windowed op i (formula_in o)))) }
    {
        let fault = fault_of(a);
        let tenses = tenses_of(a);
        match op {
            WindowOp::F | WindowOp::G => Fact::Formula(fault, tenses.and_future()),
            WindowOp::O | WindowOp::H => Fact::Formula(fault, tenses.and_past()),
        }
    }

    /// Returns the fact of two formulas under a temporal operator.
    pub fn between(op: BetweenOp, a: &Fact, b: &Fact) -> Fact
        ensures { (i : Interval) (o q : Maybe Tree) → Tells a.now o → Tells b.now q
            → Tells result (Some (formula (ranged op i (formula_in o) (formula_in q)))) }
    {
        let fault = first_fault(fault_of(a), fault_of(b));
        let tenses = tenses_of(a).or(tenses_of(b));
        match op {
            BetweenOp::U | BetweenOp::R => Fact::Formula(fault, tenses.and_future()),
            BetweenOp::S => Fact::Formula(fault, tenses.and_past()),
        }
    }
}

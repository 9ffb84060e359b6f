//! A stack of operands, from which each operator takes its own.

use anyhow::{Context, Result, bail};
use mltl_base::{ArithOp, BetweenOp, CompareOp, Interval, LogicOp, WindowOp};
use mltl_oracle::{Atom, Formula, Output, Term};
use std::alloc::Global;

/// The terms and outputs that no operator has taken yet.
#[derive(Drop)]
pub struct Operands {
    alloc: Global,
    terms: Vec<Term>,
    outs: Vec<Output>,
}

impl Operands {
    pub fn new(alloc: Global) -> Operands {
        Operands {
            alloc,
            terms: Vec::new(alloc),
            outs: Vec::new(alloc),
        }
    }

    /// Returns the outputs that are left.
    pub fn into_outputs(self) -> Vec<Output> {
        self.outs
    }

    /// Takes a signal, an integer or an operator.
    pub fn take(&mut self, word: &str) -> Result<()> {
        match word {
            "a" => self.put(Formula::Atom(Atom::IsTrue(0))),
            "b" => self.put(Formula::Atom(Atom::IsTrue(1))),
            "x" => self.put_term(Term::Column(0)),
            "&" => self.logic(LogicOp::And),
            "->" => self.logic(LogicOp::Implies),
            "<->" => self.logic(LogicOp::Iff),
            "=>" => self.contract(),
            "=" => self.compare(CompareOp::Eq),
            "<" => self.compare(CompareOp::Lt),
            "%" => self.remainder(),
            _ => match word.split_once(',') {
                Some((front, hi)) => self.timed(front, hi.parse()?),
                None => self.put_term(Term::Constant(word.parse()?)),
            },
        }
    }

    /// Takes an operator over an interval, as `U0` and the highest time.
    fn timed(&mut self, front: &str, hi: u32) -> Result<()> {
        if let Some((op, lo)) = window_op(front) {
            let lo = lo.parse()?;
            return self.window(op, Interval { lo, hi });
        }
        if let Some((op, lo)) = between_op(front) {
            let lo = lo.parse()?;
            return self.between(op, Interval { lo, hi });
        }
        bail!("no such operator: {front}")
    }

    fn formula(&mut self) -> Result<Formula> {
        match self.outs.pop() {
            Some(Output::Formula(p)) => Ok(p),
            _ => bail!("a formula is missing"),
        }
    }

    fn term(&mut self) -> Result<Term> {
        self.terms.pop().context("a number is missing")
    }

    fn put(&mut self, p: Formula) -> Result<()> {
        self.outs.push(Output::Formula(p))?;
        Ok(())
    }

    fn put_term(&mut self, x: Term) -> Result<()> {
        self.terms.push(x)?;
        Ok(())
    }

    fn logic(&mut self, op: LogicOp) -> Result<()> {
        let q = Box::new(self.alloc, self.formula()?)?;
        let p = Box::new(self.alloc, self.formula()?)?;
        self.put(Formula::Logic(op, p, q))
    }

    fn window(&mut self, op: WindowOp, i: Interval) -> Result<()> {
        let p = Box::new(self.alloc, self.formula()?)?;
        self.put(Formula::Window(op, i, p))
    }

    fn between(&mut self, op: BetweenOp, i: Interval) -> Result<()> {
        let q = Box::new(self.alloc, self.formula()?)?;
        let p = Box::new(self.alloc, self.formula()?)?;
        self.put(Formula::Between(op, i, p, q))
    }

    fn contract(&mut self) -> Result<()> {
        let q = self.formula()?;
        let p = self.formula()?;
        self.outs.push(Output::Contract(p, q))?;
        Ok(())
    }

    fn compare(&mut self, op: CompareOp) -> Result<()> {
        let right = self.term()?;
        let left = self.term()?;
        self.put(Formula::Atom(Atom::Compare(op, left, right)))
    }

    fn remainder(&mut self) -> Result<()> {
        let right = Box::new(self.alloc, self.term()?)?;
        let left = Box::new(self.alloc, self.term()?)?;
        self.put_term(Term::Arith(ArithOp::Rem, left, right))
    }
}

/// Returns the operator over one formula with which a word begins, and the text after its letter.
fn window_op(word: &str) -> Option<(WindowOp, &str)> {
    if let Some(rest) = word.strip_prefix('F') {
        return Some((WindowOp::F, rest));
    }
    if let Some(rest) = word.strip_prefix('G') {
        return Some((WindowOp::G, rest));
    }
    if let Some(rest) = word.strip_prefix('O') {
        return Some((WindowOp::O, rest));
    }
    Some((WindowOp::H, word.strip_prefix('H')?))
}

/// Returns the operator between two formulas with which a word begins, and the text after its
/// letter.
fn between_op(word: &str) -> Option<(BetweenOp, &str)> {
    if let Some(rest) = word.strip_prefix('U') {
        return Some((BetweenOp::U, rest));
    }
    if let Some(rest) = word.strip_prefix('R') {
        return Some((BetweenOp::R, rest));
    }
    Some((BetweenOp::S, word.strip_prefix('S')?))
}

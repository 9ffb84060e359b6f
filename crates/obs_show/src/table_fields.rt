//! Fields of an instruction in a line of the table.

ghost use Rattle.std.specs.Prelude.{◌≡◌, decimal};
ghost use Rattle.std.specs.Fmt.{signed_decimal};
ghost use Rattle.obs_show.specs.TableText.{shown_fields};
ghost use Rattle.obs_show.specs.Table.{bare, binary_fields, bz_fields, ft_fields, pt_fields, temporal, unary_fields};

use mltl_base::{BzOp, FtOp, Interval, PtOp};

/// The name of an instruction, its operands and the bounds of its interval, if it has them.
#[derive(Clone, Copy)]
pub(crate) struct Shown {
    pub(crate) name: &'static str,
    /// The first operand, a column, or the value of a constant.
    pub(crate) left: Option<i64>,
    pub(crate) right: Option<u32>,
    pub(crate) low: Option<u32>,
    pub(crate) high: Option<u32>,
}

/// The delays of an instruction in rows, and its slots or boxes, if it has them.
#[derive(Clone, Copy)]
pub(crate) struct Figures {
    pub(crate) best: Option<u32>,
    pub(crate) worst: Option<u32>,
    pub(crate) size: Option<u32>,
}

impl Shown {
    fn bare(name: &'static str) -> Shown
        ensures { shown_fields result ≡ bare name.now }
    {
        Shown {
            name,
            left: None,
            right: None,
            low: None,
            high: None,
        }
    }

    fn constant(name: &'static str, value: i64) -> Shown
        ensures { shown_fields result ≡ unary_fields name.now (signed_decimal value) }
    {
        Shown {
            left: Some(value),
            ..Shown::bare(name)
        }
    }

    fn unary(name: &'static str, left: u32) -> Shown
        ensures { shown_fields result ≡ unary_fields name.now (decimal left) }
    {
        Shown::constant(name, i64::from(left))
    }

    fn binary(name: &'static str, left: u32, right: u32) -> Shown
        ensures { shown_fields result ≡ binary_fields name.now left right }
    {
        Shown {
            name,
            left: Some(i64::from(left)),
            right: Some(right),
            low: None,
            high: None,
        }
    }

    fn temporal(name: &'static str, left: u32, right: u32, window: Interval) -> Shown
        ensures { shown_fields result ≡ temporal name.now left right window }
    {
        Shown {
            name,
            left: Some(i64::from(left)),
            right: Some(right),
            low: Some(window.lo),
            high: Some(window.hi),
        }
    }

    #[tactic(auto, unfolding(crate::specs::Table::bz_fields))]
    pub(crate) fn bz(op: BzOp) -> Shown
        ensures { shown_fields result ≡ bz_fields op }
    {
        match op {
            BzOp::Column(column) => Shown::unary("column", column),
            BzOp::IsTrue(column) => Shown::unary("istrue", column),
            BzOp::Const(value) => Shown::constant("const", value),
            BzOp::Neg(a) => Shown::unary("neg", a),
            BzOp::Add(a, b) => Shown::binary("add", a, b),
            BzOp::Sub(a, b) => Shown::binary("sub", a, b),
            BzOp::Mul(a, b) => Shown::binary("mul", a, b),
            BzOp::Div(a, b) => Shown::binary("div", a, b),
            BzOp::Rem(a, b) => Shown::binary("rem", a, b),
            BzOp::Eq(a, b) => Shown::binary("eq", a, b),
            BzOp::Lt(a, b) => Shown::binary("lt", a, b),
            BzOp::Le(a, b) => Shown::binary("le", a, b),
        }
    }

    #[tactic(auto, unfolding(crate::specs::Table::ft_fields))]
    pub(crate) fn ft(op: FtOp) -> Shown
        ensures { shown_fields result ≡ ft_fields op }
    {
        match op {
            FtOp::True => Shown::bare("true"),
            FtOp::Load(a) => Shown::unary("load", a),
            FtOp::Not(g) => Shown::unary("not", g),
            FtOp::And(l, r) => Shown::binary("and", l, r),
            FtOp::Until(l, r, window) => Shown::temporal("until", l, r, window),
        }
    }

    #[tactic(auto, unfolding(crate::specs::Table::pt_fields))]
    pub(crate) fn pt(op: PtOp) -> Shown
        ensures { shown_fields result ≡ pt_fields op }
    {
        match op {
            PtOp::True => Shown::bare("true"),
            PtOp::Load(a) => Shown::unary("load", a),
            PtOp::Not(g) => Shown::unary("not", g),
            PtOp::And(l, r) => Shown::binary("and", l, r),
            PtOp::Since(l, r, window) => Shown::temporal("since", l, r, window),
        }
    }
}

//! The forms of trees that side rules ask for.

ghost use Rattle.std.specs.Prelude.{◌≡◌, ◌&&◌, if◌then◌else◌, Some, None};
ghost use Rattle.java_tree.specs.declared.expr.First.{out-First};
ghost use Rattle.java_tree.specs.declared.expr.Selector.{out-Selector};
ghost use Rattle.java_model.specs.Grammar.Forms.{
  is_assignment,
  is_step,
  is_call_in,
  is_call_selector_in,
  is_call,
  is_statement,
  is_target,
};
ghost use Rattle.java_tree.specs.declared.expr.Expr.{out-Expr};
ghost use Rattle.java_expr_reading.specs.Targets.{selector_target_in, first_target_in, expr_target_in};
ghost use Rattle.java_expr_reading.specs.Reading.Expressions.{target_of, meets};

use crate::parsed::Goal;
use java_tree::{Expr, First, PrefixOp, Primary, Selector};

/// Whether an expression is an assignment (JLS 15.26).
pub fn is_assignment(x: &Expr) -> bool
    ensures { result ≡ is_assignment x.now }
{
    match x {
        Expr::Assign(..) => true,
        _ => false,
    }
}

fn is_step(op: PrefixOp) -> bool
    ensures { result ≡ is_step op }
{
    match op {
        PrefixOp::Increment | PrefixOp::Decrement => true,
        _ => false,
    }
}

/// Whether a primary expression is a call or a creation as a whole (JLS 15.12, 15.9).
fn is_call(p: &Primary) -> bool
    ensures { result ≡ is_call p.now }
{
    match p.selectors.as_slice().last() {
        Some(selector) => is_call_selector(selector),
        None => is_call_first(&p.first),
    }
}

fn is_call_selector(selector: &Selector) -> bool
    ensures { result ≡ is_call_selector_in (out-Selector selector.now) }
{
    match selector {
        Selector::MemberCall(..) | Selector::QualifiedNew(_) => true,
        _ => false,
    }
}

fn is_call_first(first: &First) -> bool
    ensures { result ≡ is_call_in (out-First first.now) }
{
    match first {
        First::Call(..) | First::SuperCall(..) | First::New(_) => true,
        _ => false,
    }
}

/// Whether an expression may be a statement (JLS 14.8).
fn is_statement(x: &Expr) -> bool
    ensures { result ≡ is_statement x.now }
{
    match x {
        Expr::Assign(..) => true,
        Expr::Prefix(op, _) => is_step(*op),
        Expr::Postfix(p, ops) => !ops.is_empty() || is_call(p),
        _ => false,
    }
}

/// Whether an expression is of a goal.
pub fn meets(goal: Goal, x: &Expr) -> bool
    ensures { result ≡ meets goal x.now }
{
    match goal {
        Goal::Any => true,
        Goal::Statement => is_statement(x),
    }
}

fn is_target_selector(selector: &Selector) -> bool
    ensures { result ≡ selector_target_in (out-Selector selector.now) }
{
    match selector {
        Selector::Field(_) | Selector::Index(_) => true,
        _ => false,
    }
}

/// Whether a primary expression may be assigned to (JLS 15.26).
#[cycle(targets)]
fn is_target(p: &Primary) -> bool
    ensures { result ≡ is_target p.now }
{
    match p.selectors.as_slice().last() {
        Some(selector) => is_target_selector(selector),
        None => is_target_first(&p.first),
    }
}

#[cycle(targets)]
#[tactic(auto, using(crate::proofs::FormLaws::target_expr_out))]
fn is_target_first(first: &First) -> bool
    ensures { result ≡ first_target_in (out-First first.now) }
{
    match first {
        First::Name(_) | First::SuperField(..) => true,
        First::Parenthesized(x) => is_target_expr(x.get()),
        _ => false,
    }
}

#[cycle(targets)]
fn is_target_expr(x: &Expr) -> bool
    ensures { result ≡ expr_target_in (out-Expr x.now) }
{
    match x {
        Expr::Postfix(p, ops) if ops.is_empty() => is_target(p),
        _ => false,
    }
}

/// The target that an expression is, if it is one.
#[tactic(auto, unfolding(crate::specs::Reading::Expressions::target_of))]
pub fn target_of(x: Expr) -> Option<Primary>
    ensures { result ≡ target_of x }
{
    match x {
        Expr::Postfix(p, ops) => bare_target(p, ops.is_empty()),
        _ => None,
    }
}

fn bare_target(p: Primary, is_bare: bool) -> Option<Primary>
    ensures { result ≡ (if is_bare && is_target p then Some p else None) }
{
    if is_bare && is_target(&p) {
        Some(p)
    } else {
        None
    }
}

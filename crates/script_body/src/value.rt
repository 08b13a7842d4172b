ghost use Rattle.std.specs.Prelude.{◌≡◌, true, neg_ℤ, ◌+ℤ◌, ◌-ℤ◌, ◌*ℤ◌};
ghost use Rattle.script_tree.specs.Seen.{expression};
ghost use Rattle.script_tree.specs.Fitting.{expression_fits};
ghost use Rattle.script_tree.specs.Values.{i64_or_overflow, truth, quotient, remainder, value_of};
ghost use Rattle.script_body.specs.Combine.{decided_by_left, combined_value};

use pct_ask::{FaultKind, REGISTER_COUNT};
use script_tree::{Expr, Op};

/// A thread's numbers.
pub(crate) type Registers = [i64; REGISTER_COUNT];

/// The value of an expression, or the first fault from the left. A number or a register, which most
/// expressions are, takes no call.
#[cycle(value)]
#[inline(always)]
pub(crate) fn value_of(expr: &Expr, registers: &Registers) -> Result<i64, FaultKind>
    requires { expression_fits (expression expr.now) ≡ true }
    ensures { result ≡ value_of registers.now (expression expr.now) }
{
    match expr {
        Expr::Number(n) => Ok(*n),
        Expr::Reg(reg) => Ok(registers[*reg as usize]),
        Expr::Not(_) | Expr::Minus(_) | Expr::Two(..) => value_of_whole(expr, registers),
    }
}

/// The same of any expression.
#[cycle(value)]
fn value_of_whole(expr: &Expr, registers: &Registers) -> Result<i64, FaultKind>
    requires { expression_fits (expression expr.now) ≡ true }
    ensures { result ≡ value_of registers.now (expression expr.now) }
{
    match expr {
        Expr::Number(n) => Ok(*n),
        Expr::Reg(reg) => Ok(registers[*reg as usize]),
        Expr::Not(a) => {
            let a = value_of(a, registers)?;
            truth(a == 0)
        }
        Expr::Minus(a) => {
            let a = value_of(a, registers)?;
            minus(a)
        }
        Expr::Two(op, a, b) => {
            let x = value_of(a, registers)?;
            match decided_by_left(*op, x) {
                Some(n) => Ok(n),
                None => {
                    let y = value_of(b, registers)?;
                    combined_value(*op, x, y)
                }
            }
        }
    }
}

/// What the left number decides without the right one.
pub(crate) fn decided_by_left(op: Op, x: i64) -> Option<i64>
    ensures { result ≡ decided_by_left op x }
{
    match op {
        Op::Or if x != 0 => Some(1),
        Op::And if x == 0 => Some(0),
        _ => None,
    }
}

/// What both numbers make, where the left one alone decides nothing.
pub(crate) fn combined_value(op: Op, x: i64, y: i64) -> Result<i64, FaultKind>
    ensures { result ≡ combined_value op x y }
{
    match op {
        Op::Or | Op::And => truth(y != 0),
        Op::Eq => truth(x == y),
        Op::Ne => truth(x != y),
        Op::Lt => truth(x < y),
        Op::Le => truth(x <= y),
        Op::Gt => truth(x > y),
        Op::Ge => truth(x >= y),
        Op::Plus => sum(x, y),
        Op::Less => difference(x, y),
        Op::Times => product(x, y),
        Op::Over => quotient(x, y),
        Op::Rest => remainder(x, y),
    }
}

/// 1 or 0.
pub(crate) fn truth(holds: bool) -> Result<i64, FaultKind>
    ensures { result ≡ truth holds }
{
    Ok(if holds { 1 } else { 0 })
}

/// The number with the other sign.
pub(crate) fn minus(x: i64) -> Result<i64, FaultKind>
    ensures { result ≡ i64_or_overflow (neg_ℤ x) }
{
    x.checked_neg().ok_or(FaultKind::Overflow)
}

fn sum(x: i64, y: i64) -> Result<i64, FaultKind>
    ensures { result ≡ i64_or_overflow (x +ℤ y) }
{
    x.checked_add(y).ok_or(FaultKind::Overflow)
}

fn difference(x: i64, y: i64) -> Result<i64, FaultKind>
    ensures { result ≡ i64_or_overflow (x -ℤ y) }
{
    x.checked_sub(y).ok_or(FaultKind::Overflow)
}

fn product(x: i64, y: i64) -> Result<i64, FaultKind>
    ensures { result ≡ i64_or_overflow (x *ℤ y) }
{
    x.checked_mul(y).ok_or(FaultKind::Overflow)
}

// Truncated toward zero.
fn quotient(x: i64, y: i64) -> Result<i64, FaultKind>
    ensures { result ≡ quotient x y }
{
    if y == 0 {
        Err(FaultKind::ZeroDivisor)
    } else {
        x.checked_div(y).ok_or(FaultKind::Overflow)
    }
}

// What the quotient leaves.
fn remainder(x: i64, y: i64) -> Result<i64, FaultKind>
    ensures { result ≡ remainder x y }
{
    if y == 0 {
        Err(FaultKind::ZeroDivisor)
    } else {
        x.checked_rem(y).ok_or(FaultKind::Overflow)
    }
}

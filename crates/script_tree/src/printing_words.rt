//! The words of a script's canonical layout.

ghost use Rattle.std.specs.Prelude.{◌≡◌, ◌++◌, [], ◌∷◌, true, OnOk};
ghost use Rattle.script_tree.specs.Forms.{kind_word};
ghost use Rattle.script_tree.specs.Expressions.{signs_of};
ghost use Rattle.script_tree.specs.Seen.{expression};
ghost use Rattle.script_tree.specs.Layout.{expression_text};
ghost use Rattle.script_tree.specs.Printing.{is_ranged};

use crate::expr::{Expr, Op};
use pct_ask::{NameKind, register_word, write_number};
use std::alloc::AllocError as NoMemory;

// A word and a space.
pub(crate) fn push_spaced(word: &[u8], out: &mut Vec<u8>) -> Result<(), NoMemory>
    ensures { OnOk result (out.new.items ≡ out.old.items ++ (word.now ++ 32 ∷ [])) }
{
    out.extend_from_slice(word)?;
    Ok(out.push(b' ')?)
}

// The last word of a line.
pub(crate) fn push_last(word: &[u8], out: &mut Vec<u8>) -> Result<(), NoMemory>
    ensures { OnOk result (out.new.items ≡ out.old.items ++ (word.now ++ 10 ∷ [])) }
{
    out.extend_from_slice(word)?;
    Ok(out.push(b'\n')?)
}

pub(crate) fn kind_word(kind: NameKind) -> &'static [u8]
    ensures { result.now ≡ kind_word kind }
{
    match kind {
        NameKind::Thread => b"thread",
        NameKind::Var => b"var",
        NameKind::Mutex => b"mutex",
        NameKind::Cond => b"cond",
        NameKind::Sem => b"sem",
        NameKind::Barrier => b"barrier",
        NameKind::RwLock => b"rwlock",
    }
}

fn signs_of(op: Op) -> &'static [u8]
    ensures { result.now ≡ signs_of op }
{
    match op {
        Op::Or => b"||",
        Op::And => b"&&",
        Op::Eq => b"==",
        Op::Ne => b"!=",
        Op::Lt => b"<",
        Op::Le => b"<=",
        Op::Gt => b">",
        Op::Ge => b">=",
        Op::Plus => b"+",
        Op::Less => b"-",
        Op::Times => b"*",
        Op::Over => b"/",
        Op::Rest => b"%",
    }
}

pub(crate) fn push_expression(expr: &Expr, out: &mut Vec<u8>) -> Result<(), NoMemory>
    ensures written { OnOk result
        (out.new.items ≡ out.old.items ++ expression_text (expression expr.now)) }
    ensures ranged { OnOk result (is_ranged (expression expr.now) ≡ true) }
{
    match expr {
        Expr::Number(n) => write_number(i128::from(*n), out),
        Expr::Reg(reg) => out.extend_from_slice(register_word(*reg)),
        Expr::Not(part) => {
            out.push(b'!')?;
            push_expression(part, out)
        }
        Expr::Minus(part) => {
            out.push(b'-')?;
            push_expression(part, out)
        }
        Expr::Two(op, left, right) => {
            out.push(b'(')?;
            push_expression(left, out)?;
            out.push(b' ')?;
            push_spaced(signs_of(*op), out)?;
            push_expression(right, out)?;
            Ok(out.push(b')')?)
        }
    }
}

//! Expressions as they are spelled.

ghost use Rattle.std.specs.Prelude.{◌≡◌, IfOk};
ghost use Rattle.script_tree.specs.Seen.{expression};
ghost use Rattle.script_parse.specs.Spellings.{spelled_tree};
ghost use Rattle.script_parse.specs.Lawful.{HasSmallNumbers};

use crate::number::small_number;
use script_tree::{Expr, Op};
use std::alloc::{AllocError as NoMemory, Global};

/// An expression, each number of which is the digits that stand in its line.
#[derive(Drop)]
pub enum Spelling<'a> {
    Number(&'a [u8]),
    Reg(u32),
    Not(Box<Spelling<'a>>),
    Minus(Box<Spelling<'a>>),
    Two(Op, Box<Spelling<'a>>, Box<Spelling<'a>>),
}

/// The expression, where no number of it is above the greatest i64.
pub fn expression_at(alloc: Global, spelling: &Spelling<'_>) -> Result<Expr, NoMemory>
    requires { HasSmallNumbers (spelled_tree spelling.now) }
    ensures { IfOk result (λ e. expression e ≡ spelled_tree spelling.now) }
{
    match spelling {
        Spelling::Number(digits) => Ok(Expr::Number(small_number(digits))),
        Spelling::Reg(reg) => Ok(Expr::Reg(*reg)),
        Spelling::Not(part) => {
            let part = expression_at(alloc, part)?;
            Ok(Expr::Not(Box::new(alloc, part)?))
        }
        Spelling::Minus(part) => {
            let part = expression_at(alloc, part)?;
            Ok(Expr::Minus(Box::new(alloc, part)?))
        }
        Spelling::Two(op, left, right) => {
            let left = expression_at(alloc, left)?;
            let right = expression_at(alloc, right)?;
            Ok(Expr::Two(*op, Box::new(alloc, left)?, Box::new(alloc, right)?))
        }
    }
}

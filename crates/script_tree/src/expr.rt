/// An operator between two parts, by its meaning: `||` `&&` `==` `!=` `<` `<=` `>` `>=` `+` `-` `*`
/// `/` `%`.
#[derive(Clone, Copy, Debug, PartialEq, Eq)]
pub enum Op {
    Or,
    And,
    Eq,
    Ne,
    Lt,
    Le,
    Gt,
    Ge,
    Plus,
    Less,
    Times,
    Over,
    Rest,
}

/// An expression over numbers and a thread's registers.
#[derive(Debug, Drop)]
pub enum Expr {
    Number(i64),
    Reg(u32),
    Not(Box<Expr>),
    Minus(Box<Expr>),
    Two(Op, Box<Expr>, Box<Expr>),
}

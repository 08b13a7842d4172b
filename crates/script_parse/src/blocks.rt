//! The blocks that are open, the innermost last.

ghost use Rattle.std.specs.Prelude.{◌≡◌, ◌∷◌, [], length, OnOk};
ghost use Rattle.script_tree.specs.Seen.{statement};
ghost use Rattle.script_parse.specs.Reading as reading;
ghost use Rattle.script_parse.specs.SeenParts.{seen_opening, seen_blocks};

use script_tree::{Block, Expr, Stmt};
use std::alloc::{AllocError as NoMemory, Global};

/// What a block begins with.
#[derive(Drop)]
pub enum Opening {
    Thread { line: u32 },
    If { line: u32, test: Expr },
    /// An `else`, with what stands before it.
    Else { line: u32, test: Expr, first: Block },
    While { line: u32, test: Expr },
}

/// A block that isn't closed yet, with the statements read so far.
#[derive(Drop)]
pub struct OpenBlock {
    pub opening: Opening,
    pub stmts: Vec<Stmt>,
}

fn is_if(opening: &Opening) -> bool
    ensures { result ≡ reading.is_if (seen_opening opening.now) }
{
    matches!(opening, Opening::If { .. })
}

/// Whether the innermost block is an `if` without `else`.
pub fn is_in_if(blocks: &[OpenBlock]) -> bool
    ensures { result ≡ reading.is_in_if (seen_blocks blocks.now) }
{
    match blocks.last() {
        None => false,
        Some(block) => is_if(&block.opening),
    }
}

/// Whether no block is open.
pub fn is_closed(blocks: &[OpenBlock]) -> bool
    ensures { result ≡ reading.is_empty (seen_blocks blocks.now) }
{
    blocks.is_empty()
}

/// How many blocks are open.
pub fn depth(blocks: &[OpenBlock]) -> usize
    ensures { result ≡ length (seen_blocks blocks.now) }
{
    blocks.len()
}

/// Adds a statement to the innermost block.
pub fn push_statement(blocks: &mut Vec<OpenBlock>, stmt: Stmt) -> Result<(), NoMemory>
    ensures { OnOk result
        (seen_blocks blocks.new.items
        ≡ reading.with_statement (statement stmt) (seen_blocks blocks.old.items)) }
{
    let Some(block) = blocks.pop() else {
        return Ok(());
    };
    let OpenBlock { opening, mut stmts } = block;
    stmts.push(stmt)?;
    blocks.push(OpenBlock { opening, stmts })?;
    Ok(())
}

/// Begins a block.
pub fn open_block(
    alloc: Global,
    blocks: &mut Vec<OpenBlock>,
    opening: Opening,
) -> Result<(), NoMemory>
    ensures { OnOk result
        (seen_blocks blocks.new.items
        ≡ record { opening = seen_opening opening; done = [] } ∷ seen_blocks blocks.old.items) }
{
    blocks.push(OpenBlock {
        opening,
        stmts: Vec::new(alloc),
    })?;
    Ok(())
}

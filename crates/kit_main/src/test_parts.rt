// What the shown test is made of.
ghost use Rattle.std.specs.Prelude.{◌≡◌, IfOk};
ghost use Rattle.trace_text.specs.Trace.{head_of};
ghost use Rattle.kit_main.specs.Showing.{test_names, test_head, IsTestDeal};

use pct_ask::{Deal, NameKind, Names, Sequence};
use std::alloc::{AllocError as NoMemory, Global};
use trace_text::Header;

/// The threads, the highest priority first.
pub const ORDER: [u32; 3] = [0, 1, 2];

/// The change points.
pub const POINTS: [u32; 1] = [1];

/// How many steps the run may have.
pub const LIMIT: u32 = 10_000;

pub fn names(alloc: Global) -> Result<Names, NoMemory>
    ensures { IfOk result (λ names. names ≡ test_names) }
{
    let mut names = Names::new(alloc);
    names.add(alloc, NameKind::Thread, b"A")?;
    names.add(alloc, NameKind::Thread, b"B")?;
    names.add(alloc, NameKind::Thread, b"C")?;
    names.add(alloc, NameKind::Var, b"x")?;
    Ok(names)
}

pub fn deal(alloc: Global) -> Result<Deal, NoMemory>
    ensures { IfOk result IsTestDeal }
{
    Ok(Deal {
        threads: 3,
        vars: Sequence::from_vec(vec![in alloc; 0]?),
        mutexes: 0,
        conds: 0,
        sems: Sequence::new(alloc),
        barriers: Sequence::new(alloc),
        rwlocks: 0,
    })
}

pub fn header(alloc: Global) -> Result<Header, NoMemory>
    ensures { IfOk result (λ header. head_of header ≡ test_head) }
{
    Ok(Header {
        version: 1,
        order: Sequence::from_vec(Vec::from_slice(alloc, &ORDER)?),
        points: Sequence::from_vec(Vec::from_slice(alloc, &POINTS)?),
        limit: LIMIT,
    })
}

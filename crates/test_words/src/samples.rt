//! The names of tests.
use pct_ask::{NameKind, Names, is_lawful_name};
use std::alloc::Global;
use std::process::Abort;
use std::test::Fail;

/// Adds a name, and tells its place among those of its kind.
pub fn add(
    rt: &impl Abort,
    alloc: Global,
    names: &mut Names,
    kind: NameKind,
    name: &[u8],
) -> Result<u32, Fail> {
    assert!(rt; is_lawful_name(1, name));
    assert!(rt; !names.contains(name));
    assert!(rt; names.count(kind) < 64);
    Ok(names.add(alloc, kind, name)?)
}

fn add_all(
    rt: &impl Abort,
    alloc: Global,
    names: &mut Names,
    all: &[(NameKind, &[u8])],
) -> Result<(), Fail> {
    for (kind, name) in all {
        add(rt, alloc, names, *kind, name)?;
    }
    Ok(())
}

fn add_both(
    rt: &impl Abort,
    alloc: Global,
    names: &mut Names,
    some: &[(NameKind, &[u8])],
    more: &[(NameKind, &[u8])],
) -> Result<(), Fail> {
    add_all(rt, alloc, names, some)?;
    add_all(rt, alloc, names, more)
}

/// The names of a test, each with its kind: some, and then more.
pub fn names_of(
    rt: &impl Abort,
    alloc: Global,
    some: &[(NameKind, &[u8])],
    more: &[(NameKind, &[u8])],
) -> Result<Names, Fail> {
    let mut names = Names::new(alloc);
    match add_both(rt, alloc, &mut names, some, more) {
        Ok(()) => Ok(names),
        Err(error) => {
            drop(names);
            Err(error)
        }
    }
}

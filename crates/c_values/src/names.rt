//! The names of a test, read from a text.

ghost use Rattle.std.specs.Prelude.{◌≡◌, true, false, None, Some, IfOk};
ghost use Rattle.pct_ask.specs.VerdictWords.{words_of};
ghost use Rattle.c_values.specs.NamesText.{with_words, joined_by, names_of_text};
ghost use Rattle.c_values.specs.Told.{Answers};

use crate::refused::Refused;
use pct_ask::{MAX_OBJECTS, NameKind, Names, first_words, is_lawful_name, split_lines};
use std::alloc::{AllocError as NoMemory, Global};

/// Adds a name of a kind. `false` where it may not join the names.
fn join(
    alloc: Global,
    names: &mut Names,
    kind: Option<NameKind>,
    name: &[u8],
) -> Result<bool, NoMemory>
    ensures { IfOk result (λ done.
        (done ≡ true → joined_by names.old name.now kind ≡ Some names.new)
        × (done ≡ false → joined_by names.old name.now kind ≡ None)) }
{
    let Some(kind) = kind else {
        return Ok(false);
    };
    if !is_lawful_name(1, name) || names.contains(name) || names.count(kind) >= MAX_OBJECTS as u32 {
        return Ok(false);
    }
    names.add(alloc, kind, name)?;
    Ok(true)
}

/// Adds the name of a line. `false` where the line says none that may join the names.
fn join_line(alloc: Global, names: &mut Names, line: &[u8]) -> Result<bool, NoMemory>
    ensures { IfOk result (λ done.
        (done ≡ true → with_words names.old (words_of line.now) ≡ Some names.new)
        × (done ≡ false → with_words names.old (words_of line.now) ≡ None)) }
{
    let words = first_words(alloc, line, 3)?;
    if words.len() != 2 {
        return Ok(false);
    }
    join(alloc, names, NameKind::of(words[0]), words[1])
}

/// The names that a text says. `None` where a line of it says none that may join those before it.
pub fn names_of(alloc: Global, text: &[u8]) -> Result<Option<Names>, NoMemory>
    ensures { IfOk result (λ names. names ≡ names_of_text text.now) }
{
    let mut names = Names::new(alloc);
    for line in split_lines(text) {
        if !join_line(alloc, &mut names, line)? {
            return Ok(None);
        }
    }
    Ok(Some(names))
}

/// The names that a text says, where it says some.
pub fn names_said(alloc: Global, text: &[u8]) -> Result<Names, Refused>
    ensures { Answers (λ names. names_of_text text.now ≡ Some names) result }
{
    match names_of(alloc, text)? {
        Some(names) => Ok(names),
        None => Err(Refused::Bad),
    }
}

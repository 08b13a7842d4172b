//! The call of C that reads a directive.

ghost use Rattle.std.specs.Prelude.{◌≡◌, ◌≢◌};
ghost use Rattle.pct_c.specs.Directives.{AnswersDirectiveRead, ReadsDirective, directive_fault};

use crate::status::{BAD, DONE, NO_MEMORY};
use crate::traces::{PctRead, read_to};
use c_texts::{PctDirective, numbers_of_directive};
use c_values::names_of;
use directive::{Directive, DirectiveError, DirectiveFault, read_directive};
use std::alloc::Global;

fn directive_fault(fault: DirectiveFault) -> u32
    ensures { result ≡ directive_fault fault }
{
    match fault {
        DirectiveFault::TooLong => 1,
        DirectiveFault::BadHeader => 2,
        DirectiveFault::BadLine => 3,
        DirectiveFault::UnknownName => 4,
        DirectiveFault::NoVerdict => 6,
        DirectiveFault::MoreAfterVerdict => 7,
    }
}

/// The directive that a text is, under the names that another one says.
fn directive_of(alloc: Global, names: &[u8], text: &[u8]) -> Result<Directive, PctRead>
    ensures { AnswersDirectiveRead names.now text.now result }
{
    let named = match names_of(alloc, names) {
        Ok(Some(named)) => named,
        Ok(None) => return Err(read_to(BAD, 0, 0)),
        Err(_) => return Err(read_to(NO_MEMORY, 0, 0)),
    };
    match read_directive(alloc, text, &named) {
        Ok(told) => Ok(told),
        Err(DirectiveError::Bad { line, kind }) => Err(read_to(BAD, line, directive_fault(kind))),
        Err(DirectiveError::NoMemory) => Err(read_to(NO_MEMORY, 0, 0)),
    }
}

/// Reads a directive file.
#[unsafe(no_mangle)]
pub extern "C" fn pct_text_read_directive(
    alloc: Global,
    names: &[u8],
    text: &[u8],
    directive: &mut PctDirective,
) -> PctRead
    ensures { ReadsDirective names.now text.now result directive.old directive.new }
{
    match directive_of(alloc, names, text) {
        Ok(told) => {
            *directive = numbers_of_directive(&told);
            read_to(DONE, 0, 0)
        }
        Err(read) => read,
    }
}

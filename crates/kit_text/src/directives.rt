// Directives as texts.
ghost use Rattle.std.specs.Prelude.{◌≡◌, Err, IfOk};
ghost use Rattle.directive.specs.Answers.{plain_directive};
ghost use Rattle.directive.specs.DirectiveText.{directive_text};
ghost use Rattle.kit_text.specs.Texts.{IsWritableDirective};

use crate::known::is_known;
use crate::texts::TextError;
use directive::{Directive, are_known_moments, write_directive};
use pct_ask::{NameKind, Names};
use std::alloc::Global;

/// A directive, as `pct` writes it and reads it back.
pub fn show_directive(
    alloc: Global,
    names: &Names,
    directive: &Directive,
) -> Result<Vec<u8>, TextError>
    ensures text { IfOk result (λ text.
        text.items ≡ directive_text names.now (plain_directive directive.now)) }
    ensures known { IfOk result (λ _. IsWritableDirective names.now directive.now) }
    ensures unknown { result ≡ Err TextError.Unknown
        → ¬ IsWritableDirective names.now directive.now }
{
    let is_low = directive.low < names.count(NameKind::Thread);
    if !is_low || !are_known_moments(names, directive.events.as_slice()) {
        return Err(TextError::Unknown);
    }
    if !is_known(names, &directive.verdict) {
        return Err(TextError::Unknown);
    }
    Ok(write_directive(alloc, directive, names)?)
}

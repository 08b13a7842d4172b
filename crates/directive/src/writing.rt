//! A directive, written line by line.

ghost use Rattle.std.specs.Prelude.{◌≡◌, ◌<◌, [], ◌∷◌, ◌++◌, All, IfOk, OnOk, length, map};
ghost use Rattle.pct_ask.specs.VerdictText.{thread_name, verdict_text, named_verdict};
ghost use Rattle.pct_ask.specs.VerdictText.{IsVerdictForm, HasNames};
ghost use Rattle.pct_ask.specs.VerdictText.{IsWholeVerdict};
ghost use Rattle.pct_ask.specs.Lines.{text_of_lines};
ghost use Rattle.directive.specs.Answers.{plain_directive};
ghost use Rattle.directive.specs.Directive.{IsDirective, IsMoment};
ghost use Rattle.directive.specs.DirectiveText.{low_line, moment_line, verdict_line};
ghost use Rattle.directive.specs.DirectiveText.{directive_text};

use crate::directive::Directive;
use pct_ask::{NameKind, Names, Verdict, write_number, write_verdict};
use policy_pick::Moment;
use std::alloc::{AllocError as NoMemory, Global};

fn push_name(out: &mut Vec<u8>, names: &Names, thread: u32) -> Result<(), NoMemory>
    requires { thread < length names.now.threads }
    ensures { OnOk result (out.new.items ≡ out.old.items ++ thread_name names.now thread) }
{
    out.extend_from_slice(names.name(NameKind::Thread, thread).unwrap())
}

fn push_low(out: &mut Vec<u8>, names: &Names, low: u32) -> Result<(), NoMemory>
    requires { low < length names.now.threads }
    ensures { OnOk result (out.new.items ≡ out.old.items
        ++ text_of_lines (low_line (thread_name names.now low) ∷ [])) }
{
    out.extend_from_slice(b"low ")?;
    push_name(out, names, low)?;
    out.push(b'\n')?;
    Ok(())
}

fn push_moment(out: &mut Vec<u8>, names: &Names, moment: Moment) -> Result<(), NoMemory>
    requires { moment.thread < length names.now.threads }
    ensures { OnOk result (out.new.items ≡ out.old.items
        ++ text_of_lines (moment_line names.now moment ∷ [])) }
{
    out.extend_from_slice(b"after ")?;
    push_name(out, names, moment.thread)?;
    out.push(b' ')?;
    write_number(i128::from(moment.number), out)?;
    out.push(b'\n')?;
    Ok(())
}

fn push_moments(out: &mut Vec<u8>, names: &Names, moments: &[Moment]) -> Result<(), NoMemory>
    requires { All (IsMoment names.now) moments.now }
    ensures { OnOk result (out.new.items ≡ out.old.items
        ++ text_of_lines (map (moment_line names.now) moments.now)) }
{
    for moment in moments {
        push_moment(out, names, *moment)?;
    }
    Ok(())
}

fn push_verdict(out: &mut Vec<u8>, names: &Names, verdict: &Verdict) -> Result<(), NoMemory>
    requires threads { HasNames names.now verdict.now }
    requires whole { IsWholeVerdict verdict.now }
    ensures text { OnOk result (out.new.items ≡ out.old.items
        ++ text_of_lines (verdict_line (verdict_text names.now verdict.now) ∷ [])) }
    ensures form { OnOk result (IsVerdictForm names.now (named_verdict names.now verdict.now)) }
{
    out.extend_from_slice(b"verdict ")?;
    write_verdict(verdict, names, out)?;
    out.push(b'\n')?;
    Ok(())
}

/// Writes a directive under the names of a test.
pub fn write_directive(
    alloc: Global,
    directive: &Directive,
    names: &Names,
) -> Result<Vec<u8>, NoMemory>
    requires low { directive.now.low < length names.now.threads }
    requires events { All (IsMoment names.now) directive.now.events }
    requires threads { HasNames names.now directive.now.verdict }
    requires whole { IsWholeVerdict directive.now.verdict }
    ensures text { IfOk result (λ text. text.items
        ≡ directive_text names.now (plain_directive directive.now)) }

    // So it is read back as this directive, and as nothing else.
    ensures directive { IfOk result
        (λ text. IsDirective text.items names.now (plain_directive directive.now)) }
{
    // The names are lawful, and so what is written can be read.
    let _ = names.count(NameKind::Thread);
    let mut text = Vec::new(alloc);
    text.extend_from_slice(b"directive 1\n")?;
    push_low(&mut text, names, directive.low)?;
    push_moments(&mut text, names, directive.events.as_slice())?;
    push_verdict(&mut text, names, &directive.verdict)?;
    Ok(text)
}

//! A script as a text, in its canonical layout.

ghost use Rattle.std.specs.Prelude.{◌≡◌, [], ◌∷◌, ◌++◌, true, All, length, map, IfOk, OnOk};
ghost use Rattle.std.specs.Prelude.{FitsSigned};
ghost use Rattle.std.specs.Int.{w64};
ghost use Rattle.pct_ask.specs.NameLists.{list_of};
ghost use Rattle.pct_ask.specs.Numbers.{number_text};
ghost use Rattle.pct_ask.specs.Lines.{text_of_lines};
ghost use Rattle.script_tree.specs.ScriptSeen.{plain_script};
ghost use Rattle.script_tree.specs.ScriptParts.{thread_text};
ghost use Rattle.script_tree.specs.Layout.{layout, form_text};
ghost use Rattle.script_tree.specs.Layout.{plain_forms, valued_forms, declared_forms};
ghost use Rattle.script_tree.specs.Grammar.{all_thread_lines, Spells};
ghost use Rattle.script_tree.specs.Renumbering.{renumbered_script, IsShort};
ghost use Rattle.script_tree.specs.Printing.{printed_lines, are_ranged};

use crate::printing_statements::push_statements;
use crate::printing_words::{kind_word, push_last, push_spaced};
use crate::script::Script;
use crate::stmt::ThreadText;
use pct_ask::{NameKind, Names, NumberList, name_at, write_number};
use std::alloc::{AllocError as NoMemory, Global};

/// The canonical layout of a script: each script has just one. Where that is no longer than a
/// script may be, it is a text of the same script, with the lines that its statements have in it.
pub fn print_script(alloc: Global, script: &Script) -> Result<Vec<u8>, NoMemory>
    ensures layout { IfOk result (λ bytes. bytes.items ≡ layout (plain_script script.now)) }
    ensures spelled { IfOk result (λ bytes.
        IsShort bytes.items → Spells bytes.items (renumbered_script (plain_script script.now))) }
{
    // The names are lawful, and so what is printed can be read.
    let _ = script.names.count(NameKind::Thread);
    let mut out = Vec::new(alloc);
    push_spaced(b"script", &mut out)?;
    write_number(i128::from(script.version), &mut out)?;
    out.push(b'\n')?;
    push_declarations(script, &mut out)?;
    push_threads(&script.threads, &script.names, &mut out)?;
    Ok(out)
}

// By kinds in this order.
fn push_declarations(script: &Script, out: &mut Vec<u8>) -> Result<(), NoMemory>
    ensures written { OnOk result
        (out.new.items
        ≡ out.old.items
        ++ text_of_lines (map form_text (declared_forms (plain_script script.now)))) }
    ensures ranged { OnOk result (All (FitsSigned w64) script.now.vars) }
{
    let names = &script.names;
    push_valued(NameKind::Var, names, &script.vars, out)?;
    push_plain(NameKind::Mutex, names, out)?;
    push_plain(NameKind::Cond, names, out)?;
    push_valued(NameKind::Sem, names, &script.sems, out)?;
    push_valued(NameKind::Barrier, names, &script.barriers, out)?;
    push_plain(NameKind::RwLock, names, out)
}

fn push_plain(kind: NameKind, names: &Names, out: &mut Vec<u8>) -> Result<(), NoMemory>
    ensures { OnOk result
        (out.new.items
        ≡ out.old.items
        ++ text_of_lines (map form_text (plain_forms kind (list_of kind names.now)))) }
{
    for place in 0..names.count(kind) {
        push_spaced(kind_word(kind), out)?;
        push_last(name_at(names, kind, place), out)?;
    }
    Ok(())
}

fn push_valued(
    kind: NameKind,
    names: &Names,
    values: &NumberList,
    out: &mut Vec<u8>,
) -> Result<(), NoMemory>
    requires { length values.now ≡ length (list_of kind names.now) }
    ensures written { OnOk result
        (out.new.items
        ≡ out.old.items
        ++ text_of_lines (map form_text (valued_forms kind (list_of kind names.now) values.now))) }
    ensures ranged { OnOk result (All (FitsSigned w64) values.now) }
{
    let firsts = values.as_slice();
    for place in 0..names.count(kind) {
        push_spaced(kind_word(kind), out)?;
        push_spaced(name_at(names, kind, place), out)?;
        push_spaced(b"=", out)?;
        let first = firsts[place as usize];
        push_value(first, out)?;
    }
    Ok(())
}

// A first value, which ends its line.
fn push_value(value: i64, out: &mut Vec<u8>) -> Result<(), NoMemory>
    ensures written { OnOk result
        (out.new.items ≡ out.old.items ++ (number_text value ++ 10 ∷ [])) }
    ensures ranged { FitsSigned w64 value }
{
    write_number(i128::from(value), out)?;
    Ok(out.push(b'\n')?)
}

fn push_threads(threads: &[ThreadText], names: &Names, out: &mut Vec<u8>) -> Result<(), NoMemory>
    requires { length threads.now ≡ length names.now.threads }
    ensures written { OnOk result
        (out.new.items
        ≡ out.old.items
        ++ printed_lines
        (all_thread_lines names.now names.now.threads (map thread_text threads.now))) }
    ensures ranged { OnOk result
        (are_ranged (all_thread_lines names.now names.now.threads (map thread_text threads.now))
        ≡ true) }
{
    for place in 0..names.count(NameKind::Thread) {
        push_spaced(b"thread", out)?;
        push_last(name_at(names, NameKind::Thread, place), out)?;
        push_statements(&threads[place as usize].body, names, out)?;
        push_last(b"end", out)?;
    }
    Ok(())
}

//! The forms that a line may have.

ghost use Rattle.std.specs.Prelude.{◌≡◌, IfOk};
ghost use Rattle.std.specs.List.{position};
ghost use Rattle.std.specs.Option.{option_map};
ghost use Rattle.script_parse.specs.Seen.{seen, all_seen};
ghost use Rattle.script_parse.specs.SeenForms.{seen_form};
ghost use Rattle.script_tree.specs.Forms.{Assert, If, While};
ghost use Rattle.script_parse.specs.Machine.{expression_in};
ghost use Rattle.script_parse.specs.Saying as saying;

use crate::declaration::declared_form;
use crate::expression::{expression_of, says};
use crate::spelling::Spelling;
use crate::token::Token;
use pct_ask::{IntoVerb, NameKind, OnVerb, is_lawful_name, register_of};
use std::alloc::{AllocError as NoMemory, Global};

/// What a line says.
#[derive(Drop)]
pub enum Form<'a> {
    Plain {
        kind: NameKind,
        name: &'a [u8],
    },
    Valued {
        kind: NameKind,
        name: &'a [u8],
        minus: bool,
        digits: &'a [u8],
    },
    Thread {
        name: &'a [u8],
    },
    On {
        verb: OnVerb,
        object: &'a [u8],
    },
    Into {
        verb: IntoVerb,
        reg: u32,
        object: &'a [u8],
    },
    Write {
        var: &'a [u8],
        value: Spelling<'a>,
    },
    Add {
        reg: u32,
        var: &'a [u8],
        value: Spelling<'a>,
    },
    Cas {
        reg: u32,
        var: &'a [u8],
        old: Spelling<'a>,
        new: Spelling<'a>,
    },
    Wait {
        cond: &'a [u8],
        mutex: &'a [u8],
    },
    Yield,
    Assert {
        test: Spelling<'a>,
    },
    Set {
        reg: u32,
        value: Spelling<'a>,
    },
    If {
        test: Spelling<'a>,
    },
    While {
        test: Spelling<'a>,
    },
    End,
    Else,
}

fn on_form<'a>(version: u32, verb: OnVerb, tokens: &[Token<'a>]) -> Option<Form<'a>>
    ensures { option_map seen_form result
        ≡ saying.on_form version verb (all_seen tokens.now) }
{
    let [Token::Word(object)] = tokens else {
        return None;
    };
    if verb.row().since <= version && is_lawful_name(version, object) {
        Some(Form::On { verb, object })
    } else {
        None
    }
}

/// A word that stands alone.
fn lone_word<'a>(tokens: &[Token<'a>]) -> Option<&'a [u8]>
    ensures { option_map (λ word. word.now) result ≡ saying.lone_word (all_seen tokens.now) }
{
    match tokens {
        [Token::Word(word)] => Some(word),
        _ => None,
    }
}

fn into_object<'a>(
    version: u32,
    verb: IntoVerb,
    register: &[u8],
    object: &'a [u8],
) -> Option<Form<'a>>
    ensures { option_map seen_form result
        ≡ saying.into_object version verb register.now object.now }
{
    if verb.row().since > version || !is_lawful_name(version, object) {
        return None;
    }
    let reg = register_of(register)?;
    Some(Form::Into { verb, reg, object })
}

fn into_form<'a>(version: u32, verb: IntoVerb, tokens: &[Token<'a>]) -> Option<Form<'a>>
    ensures { option_map seen_form result
        ≡ saying.into_form version verb (all_seen tokens.now) }
{
    let [Token::Word(register), operands @ ..] = tokens else {
        return None;
    };
    let object = lone_word(operands)?;
    into_object(version, verb, register, object)
}

fn wait_mutex<'a>(version: u32, cond: &'a [u8], mutex: &'a [u8]) -> Option<Form<'a>>
    ensures { option_map seen_form result ≡ saying.wait_mutex version cond.now mutex.now }
{
    if is_lawful_name(version, cond) && is_lawful_name(version, mutex) {
        Some(Form::Wait { cond, mutex })
    } else {
        None
    }
}

fn wait_form<'a>(version: u32, tokens: &[Token<'a>]) -> Option<Form<'a>>
    ensures { option_map seen_form result ≡ saying.wait_form version (all_seen tokens.now) }
{
    let [Token::Word(cond), operands @ ..] = tokens else {
        return None;
    };
    let mutex = lone_word(operands)?;
    wait_mutex(version, cond, mutex)
}

/// A form that is its word alone.
fn bare_form<'a>(form: Form<'a>, tokens: &[Token<'_>]) -> Option<Form<'a>>
    ensures { option_map seen_form result
        ≡ saying.bare_form (seen_form form.entry) (all_seen tokens.now) }
{
    if tokens.is_empty() { Some(form) } else { None }
}

fn write_form<'a>(
    alloc: Global,
    version: u32,
    tokens: &[Token<'a>],
) -> Result<Option<Form<'a>>, NoMemory>
    ensures { IfOk result (λ found.
        option_map seen_form found ≡ saying.write_form version (all_seen tokens.now)) }
{
    let [Token::Word(var), value @ ..] = tokens else {
        return Ok(None);
    };
    if !is_lawful_name(version, var) {
        return Ok(None);
    }
    match expression_of(alloc, value)? {
        None => Ok(None),
        Some(value) => Ok(Some(Form::Write { var, value })),
    }
}

fn add_form<'a>(
    alloc: Global,
    version: u32,
    tokens: &[Token<'a>],
) -> Result<Option<Form<'a>>, NoMemory>
    ensures { IfOk result (λ found.
        option_map seen_form found ≡ saying.add_form version (all_seen tokens.now)) }
{
    let [Token::Word(register), operands @ ..] = tokens else {
        return Ok(None);
    };
    let [Token::Word(var), value @ ..] = operands else {
        return Ok(None);
    };
    if !is_lawful_name(version, var) {
        return Ok(None);
    }
    let Some(reg) = register_of(register) else {
        return Ok(None);
    };
    match expression_of(alloc, value)? {
        None => Ok(None),
        Some(value) => Ok(Some(Form::Add { reg, var, value })),
    }
}

fn is_comma(token: &Token<'_>) -> bool
    ensures { result ≡ saying.is_comma (seen token.now) }
{
    match token {
        Token::Symbol(signs) => says(signs, b","),
        _ => false,
    }
}

fn comma_in(tokens: &[Token<'_>]) -> Option<usize>
    ensures { result ≡ position (λ token. saying.is_comma (seen token)) tokens.now }
{
    tokens.iter().position(|token| is_comma(token))
}

fn cas_pair<'a>(
    alloc: Global,
    reg: u32,
    var: &'a [u8],
    old: &[Token<'a>],
    new: &[Token<'a>],
) -> Result<Option<Form<'a>>, NoMemory>
    ensures { IfOk result (λ found.
        option_map seen_form found
        ≡ saying.cas_pair reg var.now (all_seen old.now) (all_seen new.now)) }
{
    let Some(old) = expression_of(alloc, old)? else {
        return Ok(None);
    };
    match expression_of(alloc, new)? {
        None => Ok(None),
        Some(new) => Ok(Some(Form::Cas { reg, var, old, new })),
    }
}

fn cas_parts<'a>(
    alloc: Global,
    reg: u32,
    var: &'a [u8],
    values: &[Token<'a>],
) -> Result<Option<Form<'a>>, NoMemory>
    ensures { IfOk result (λ found.
        option_map seen_form found
        ≡ saying.cas_parts reg var.now
        (saying.parts_at (position saying.is_comma (all_seen values.now)) (all_seen values.now))) }
{
    let Some(place) = comma_in(values) else {
        return Ok(None);
    };
    let (old, behind) = values.split_at(place);
    let Some((_comma, new)) = behind.split_first() else {
        return Ok(None);
    };
    cas_pair(alloc, reg, var, old, new)
}

fn cas_form<'a>(
    alloc: Global,
    version: u32,
    tokens: &[Token<'a>],
) -> Result<Option<Form<'a>>, NoMemory>
    ensures { IfOk result (λ found.
        option_map seen_form found ≡ saying.cas_form version (all_seen tokens.now)) }
{
    let [Token::Word(register), operands @ ..] = tokens else {
        return Ok(None);
    };
    let [Token::Word(var), values @ ..] = operands else {
        return Ok(None);
    };
    if !is_lawful_name(version, var) {
        return Ok(None);
    }
    match register_of(register) {
        None => Ok(None),
        Some(reg) => cas_parts(alloc, reg, var, values),
    }
}

fn set_form<'a>(alloc: Global, tokens: &[Token<'a>]) -> Result<Option<Form<'a>>, NoMemory>
    ensures { IfOk result (λ found.
        option_map seen_form found ≡ saying.set_form (all_seen tokens.now)) }
{
    let [Token::Word(register), value @ ..] = tokens else {
        return Ok(None);
    };
    let Some(reg) = register_of(register) else {
        return Ok(None);
    };
    match expression_of(alloc, value)? {
        None => Ok(None),
        Some(value) => Ok(Some(Form::Set { reg, value })),
    }
}

fn assert_form<'a>(alloc: Global, tokens: &[Token<'a>]) -> Result<Option<Form<'a>>, NoMemory>
    ensures { IfOk result (λ found.
        option_map seen_form found ≡ option_map Assert (expression_in (all_seen tokens.now))) }
{
    match expression_of(alloc, tokens)? {
        None => Ok(None),
        Some(test) => Ok(Some(Form::Assert { test })),
    }
}

fn if_form<'a>(alloc: Global, tokens: &[Token<'a>]) -> Result<Option<Form<'a>>, NoMemory>
    ensures { IfOk result (λ found.
        option_map seen_form found ≡ option_map If (expression_in (all_seen tokens.now))) }
{
    match expression_of(alloc, tokens)? {
        None => Ok(None),
        Some(test) => Ok(Some(Form::If { test })),
    }
}

fn while_form<'a>(alloc: Global, tokens: &[Token<'a>]) -> Result<Option<Form<'a>>, NoMemory>
    ensures { IfOk result (λ found.
        option_map seen_form found ≡ option_map While (expression_in (all_seen tokens.now))) }
{
    match expression_of(alloc, tokens)? {
        None => Ok(None),
        Some(test) => Ok(Some(Form::While { test })),
    }
}

/// The forms with an expression, and the rest.
fn other_form<'a>(
    alloc: Global,
    version: u32,
    word: &[u8],
    tokens: &[Token<'a>],
) -> Result<Option<Form<'a>>, NoMemory>
    ensures { IfOk result (λ found.
        option_map seen_form found ≡ saying.other_form version word.now (all_seen tokens.now)) }
{
    if says(word, b"write") {
        write_form(alloc, version, tokens)
    } else if says(word, b"add") {
        add_form(alloc, version, tokens)
    } else if says(word, b"cas") {
        cas_form(alloc, version, tokens)
    } else if says(word, b"set") {
        set_form(alloc, tokens)
    } else if says(word, b"assert") {
        assert_form(alloc, tokens)
    } else if says(word, b"if") {
        if_form(alloc, tokens)
    } else if says(word, b"while") {
        while_form(alloc, tokens)
    } else {
        Ok(quiet_form(version, word, tokens))
    }
}

/// The forms that remain, which hold no expression.
fn quiet_form<'a>(version: u32, word: &[u8], tokens: &[Token<'a>]) -> Option<Form<'a>>
    ensures { option_map seen_form result
        ≡ saying.quiet_form version word.now (all_seen tokens.now) }
{
    if says(word, b"wait") {
        wait_form(version, tokens)
    } else if says(word, b"yield") {
        bare_form(Form::Yield, tokens)
    } else if says(word, b"end") {
        bare_form(Form::End, tokens)
    } else if says(word, b"else") {
        bare_form(Form::Else, tokens)
    } else {
        None
    }
}

/// The form of a line that isn't blank, by the version of the language.
pub fn form_of<'a>(
    alloc: Global,
    version: u32,
    tokens: &[Token<'a>],
) -> Result<Option<Form<'a>>, NoMemory>
    ensures { IfOk result (λ found.
        option_map seen_form found ≡ saying.form_in version (all_seen tokens.now)) }
{
    let [Token::Word(word), operands @ ..] = tokens else {
        return Ok(None);
    };
    if let Some(verb) = OnVerb::of(word) {
        return Ok(on_form(version, verb, operands));
    }
    if let Some(verb) = IntoVerb::of(word) {
        return Ok(into_form(version, verb, operands));
    }
    match NameKind::of(word) {
        None => other_form(alloc, version, word, operands),
        Some(kind) => Ok(declared_form(version, kind, operands)),
    }
}

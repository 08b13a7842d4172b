//! Registers, letters, verbs, and what is written behind a space.
use crate::samples::names_of;
use pct_ask::{
    IntoVerb, NameKind, OnVerb, Verb, is_letter, is_word_byte, name_at, register_of, register_word,
    verb_in, write_spaced_number, write_spaced_word,
};
use std::test::Fail;

#[test]
fn registers(rt: HostRuntime) {
    assert!(rt; register_word(0) == b"r0".as_slice());
    assert!(rt; register_word(15) == b"r15".as_slice());
    assert!(rt; register_word(16).is_empty());
    assert_eq!(rt; register_of(b"r0"), Some(0));
    assert_eq!(rt; register_of(b"r15"), Some(15));
    assert_eq!(rt; register_of(b"r16"), None);
}

/// Bytes, whether a word may begin with them, and whether it may go on.
const BYTES: [(u8, bool, bool); 5] = [
    (b'a', true, true),
    (b'Z', true, true),
    (b'_', true, true),
    (b'9', false, true),
    (b'-', false, false),
];

#[test]
fn letters(rt: HostRuntime) {
    for (byte, begins, goes_on) in &BYTES {
        assert_eq!(rt; is_letter(*byte), *begins, "{byte}");
        assert_eq!(rt; is_word_byte(*byte), *goes_on, "{byte}");
    }
}

#[test]
fn verbs(rt: HostRuntime) {
    assert!(rt; verb_in(1, b"rdlock").is_none());
    assert!(rt; matches!(verb_in(2, b"rdlock"), Some(Verb::RdLock)));
    assert!(rt; verb_in(2, b"start ").is_none());
    assert!(rt; matches!(OnVerb::of(b"start"), Some(OnVerb::Start)));
    assert!(rt; IntoVerb::of(b"start").is_none());
    assert!(rt; matches!(IntoVerb::of(b"tryrdlock"), Some(IntoVerb::TryRdLock)));
    assert_eq!(rt; NameKind::of(b"rwlock"), Some(NameKind::RwLock));
    assert_eq!(rt; NameKind::of(b"rdlock"), None);
    assert_eq!(rt; OnVerb::Start.row().since, 2);
    assert_eq!(rt; IntoVerb::TryDown.row().kind, NameKind::Sem);
}

#[test]
fn behind_spaces(rt: HostRuntime) -> Result<(), Fail> {
    let names = names_of(&rt, rt.alloc(), &[(NameKind::Thread, b"A")], &[])?;
    let mut out = Vec::new(rt.alloc());
    let written = write_spaced_word(name_at(&names, NameKind::Thread, 0), &mut out);
    assert!(rt; name_at(&names, NameKind::Thread, 1).is_empty());
    drop(names);
    written?;
    write_spaced_number(-7, &mut out)?;
    assert!(rt; out.as_slice() == b" A -7".as_slice());
    Ok(())
}

ghost use Rattle.std.specs.Prelude.{◌≡◌, map, position};
ghost use Rattle.std.specs.List.{list_all, list_any};
ghost use Rattle.std.specs.Str.{bytes_eq};
ghost use Rattle.pct_ask.specs.Words.{is_word, is_among, is_name, keywords};
ghost use Rattle.pct_ask.specs.Words.{register_word, register_in};
ghost use Rattle.pct_ask.specs.Characters.{is_letter, is_word_byte};

const FIRST_KEYWORDS: [&[u8]; 29] = [
    b"script",
    b"var",
    b"mutex",
    b"cond",
    b"sem",
    b"barrier",
    b"thread",
    b"end",
    b"read",
    b"write",
    b"add",
    b"cas",
    b"lock",
    b"trylock",
    b"unlock",
    b"wait",
    b"signal",
    b"broadcast",
    b"down",
    b"trydown",
    b"up",
    b"arrive",
    b"join",
    b"yield",
    b"assert",
    b"set",
    b"if",
    b"else",
    b"while",
];

const SECOND_KEYWORDS: [&[u8]; 1] = [b"start"];

const THIRD_KEYWORDS: [&[u8]; 7] = [
    b"start",
    b"rwlock",
    b"rdlock",
    b"wrlock",
    b"tryrdlock",
    b"trywrlock",
    b"rwunlock",
];

/// How many registers a thread has.
pub const REGISTER_COUNT: usize = 16;

const REGISTERS: [&[u8]; REGISTER_COUNT] = [
    b"r0", b"r1", b"r2", b"r3", b"r4", b"r5", b"r6", b"r7", b"r8", b"r9", b"r10", b"r11", b"r12",
    b"r13", b"r14", b"r15",
];

/// Whether a word may be a name in a script of a version, from 1.
pub fn is_lawful_name(version: u32, word: &[u8]) -> bool
    ensures { result ≡ is_name version word.now }
{
    is_word(word) && !is_keyword(version, word) && !is_among(word, &REGISTERS)
}

fn is_word(word: &[u8]) -> bool
    ensures { result ≡ is_word word.now }
{
    match word.split_first() {
        None => false,
        Some((first, others)) => is_letter(*first) && are_word_bytes(others) && others.len() <= 31,
    }
}

fn are_word_bytes(bytes: &[u8]) -> bool
    ensures { result ≡ list_all is_word_byte bytes.now }
{
    bytes.iter().all(|b| is_word_byte(*b))
}

/// Whether a word may begin with the byte.
pub fn is_letter(b: u8) -> bool
    ensures { result ≡ is_letter b }
{
    matches!(b, b'a'..=b'z' | b'A'..=b'Z' | b'_')
}

/// Whether a word may go on with the byte.
pub fn is_word_byte(b: u8) -> bool
    ensures { result ≡ is_word_byte b }
{
    is_letter(b) || b.is_ascii_digit()
}

fn is_keyword(version: u32, word: &[u8]) -> bool
    ensures { result ≡ is_among word.now (keywords version) }
{
    if is_among(word, &FIRST_KEYWORDS) {
        return true;
    }
    match version {
        0 | 1 => false,
        2 => is_among(word, &SECOND_KEYWORDS),
        _ => is_among(word, &THIRD_KEYWORDS),
    }
}

/// The word of a register, r0 to r15, and no bytes where there is no such one.
pub fn register_word(register: u32) -> &'static [u8]
    ensures { result.now ≡ register_word register }
{
    REGISTERS.get(register as usize).copied().unwrap_or(b"")
}

/// The register, from 0, that a word is.
pub fn register_of(word: &[u8]) -> Option<u32>
    ensures { result ≡ register_in word.now }
{
    let place = place_among(word, &REGISTERS)?;
    Some(place as u32)
}

fn place_among(word: &[u8], words: &[&[u8]]) -> Option<usize>
    ensures { result ≡ position (λ other. bytes_eq word.now other.now) words.now }
{
    words.iter().position(|other| word == *other)
}

/// Whether a word is one of these.
pub fn is_among(word: &[u8], words: &[&[u8]]) -> bool
    ensures { result ≡ is_among word.now (map (λ other. other.now) words.now) }
{
    holds_word(words, word)
}

fn holds_word(words: &[&[u8]], word: &[u8]) -> bool
    ensures { result ≡ list_any (λ other. bytes_eq word.now other.now) words.now }
{
    words.iter().any(|other| word == *other)
}

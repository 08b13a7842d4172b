//! Texts for the tests, each with its first fault, or none where it is a script.
use script_tree::ScriptFault;
use script_tree::ScriptFault::{
    BadHeader, BadStatement, BadToken, LineTooLong, NoEnd, NoThread, NotUtf8, NumberRange,
    StrayEnd, TooMany, TooManyLines, TwiceNamed, UnknownName,
};

pub type Want = Option<(u32, ScriptFault)>;

/// Short texts.
pub const TEXTS: [(&str, Want); 99] = [
    (
        "script 1\nvar x = 0\nthread A\nstart B\nread r0 x\nend\nthread B\nwrite x 1\nend\n",
        Some((4, BadStatement)),
    ),
    (
        "script 2\nvar x = 0\nthread A\nstart B\nread r0 x\nend\nthread B\nwrite x 1\nend\n",
        None,
    ),
    ("script 1\nthread A\nend\n", None),
    ("script 1\r\nthread A\r\nend", None),
    ("# a\n\nscript 1 # b\nthread A\nend", None),
    ("script 01\nthread A\nend\n", Some((1, BadHeader))),
    ("script 4\nthread A\nend\n", Some((1, BadHeader))),
    ("thread A\nend\n", Some((1, BadHeader))),
    ("\u{feff}script 1\nthread A\nend\n", Some((1, BadHeader))),
    ("", Some((1, BadHeader))),
    ("\n\n # \n", Some((1, BadHeader))),
    ("script 1\n", Some((1, NoThread))),
    ("script 1", Some((1, NoThread))),
    ("script 1\n\n", Some((2, NoThread))),
    ("script 1\nthread A\nset r0 1a\nend\n", Some((3, BadToken))),
    ("script 1\nthread A\nset r0 1_\nend\n", Some((3, BadToken))),
    ("script 1\nthread A\nset r0 1#c\nset r0 (1)\nend\n", None),
    ("script 1\nvar r0x = 1\nthread A\nwrite r0x 1\nend\n", None),
    ("script 1\nthread A\nset r0 1;\nend\n", Some((3, BadToken))),
    (
        "script 1\nthread A\nset r0 1 & 1\nend\n",
        Some((3, BadToken)),
    ),
    (
        "script 1\nthread A\nset r0 1 | 1\nend\n",
        Some((3, BadToken)),
    ),
    ("script 1\nthread A\n\u{c}\nend\n", Some((3, BadToken))),
    ("script 1\nthread \u{e9}\nend\n", Some((2, BadToken))),
    ("script 1\nthread A # \u{e9}\nend\n", None),
    (
        "script 1\nthread A\njoin B\nthread B\nend\n",
        Some((4, BadStatement)),
    ),
    (
        "script 1\nthread A\njoin B\nend\nthread B x\n",
        Some((3, UnknownName)),
    ),
    (
        "script 1\nthread A\njoin B\nend\nthread B @\n",
        Some((3, UnknownName)),
    ),
    ("script 1\nthread A\njoin B\nend\nthread B # c\nend\n", None),
    (
        "script 1\nvar B = 0\nthread A\njoin B\nend\n",
        Some((4, UnknownName)),
    ),
    (
        "script 1\nvar B = 0\nthread A\njoin B\nend\nthread B\nend\n",
        Some((6, TwiceNamed)),
    ),
    (
        "script 1\nmutex B\nvar B = 0\nthread A\nend\n",
        Some((3, TwiceNamed)),
    ),
    (
        "script 1\nthread A\nend\nthread A\nend\n",
        Some((4, TwiceNamed)),
    ),
    ("script 1\nthread A\nif 1\nend\n", Some((4, NoEnd))),
    ("script 1\nthread A\nelse\n", Some((3, NoEnd))),
    ("script 1\nend\n", Some((2, StrayEnd))),
    ("script 1\nelse\n", Some((2, StrayEnd))),
    (
        "script 1\nthread A\nend\nend\nthread B\nend\n",
        Some((4, StrayEnd)),
    ),
    ("script 1\nthread A\nelse\nend\n", Some((3, StrayEnd))),
    (
        "script 1\nthread A\nif 1\nelse\nelse\nend\nend\n",
        Some((5, StrayEnd)),
    ),
    (
        "script 1\nthread A\nwhile 0\nelse\nend\nend\n",
        Some((4, StrayEnd)),
    ),
    (
        "script 1\nthread A\nif 1\nwhile 0\nend\nelse\nend\nend\n",
        None,
    ),
    ("script 1\nthread A\nwhile 1\nend\n", Some((4, NoEnd))),
    ("script 1\nthread A\nend x\n", Some((3, BadStatement))),
    ("script 1\nthread A\nread r0 x\n", Some((3, UnknownName))),
    (
        "script 1\nvar x = 0\nvar x = 9223372036854775808\n",
        Some((3, TwiceNamed)),
    ),
    (
        "script 1\nvar x = 9223372036854775808\n",
        Some((2, NumberRange)),
    ),
    ("script 1\nthread if\nend\n", Some((2, BadStatement))),
    (
        "script 1\nmutex m\nthread A\nlock r1\nend\n",
        Some((4, BadStatement)),
    ),
    (
        "script 1\nvar x = 0\nthread A\nread r16 x\nend\n",
        Some((4, BadStatement)),
    ),
    (
        "script 1\nvar r16 = 0\nvar r00 = 0\nthread A\nwrite r16 r15\nread r15 r00\nend\n",
        None,
    ),
    (
        "script 1\nvar release = 0\nvar regain = 0\nvar leave = 0\nvar check = 0\nvar fault = 0\n\
        var begin = 0\nthread A\nend\n",
        None,
    ),
    (
        "script 1\nthread A\nvar x = 0\nend\n",
        Some((3, BadStatement)),
    ),
    (
        "script 1\nthread A\nthread B\nend\nend\n",
        Some((3, BadStatement)),
    ),
    (
        "script 1\nthread A\nend\nvar x = 0\nthread B\nend\n",
        Some((4, BadStatement)),
    ),
    (
        "script 1\nscript 1\nthread A\nend\n",
        Some((2, BadStatement)),
    ),
    (
        "script 1\nsem s = - 1\nthread A\nend\n",
        Some((2, BadStatement)),
    ),
    ("script 1\nsem s = 2147483647\nthread A\nup s\nend\n", None),
    (
        "script 1\nsem s = 2147483648\nthread A\nend\n",
        Some((2, NumberRange)),
    ),
    (
        "script 1\nbarrier b = 0\nthread A\nend\n",
        Some((2, NumberRange)),
    ),
    ("script 1\nbarrier b = 1000\nthread A\nend\n", None),
    (
        "script 1\nbarrier b = 1001\nthread A\nend\n",
        Some((2, NumberRange)),
    ),
    (
        "script 1\nthread A\nassert 1 < 2 < 3\nend\n",
        Some((3, BadStatement)),
    ),
    ("script 1\nthread A\nassert (1 < 2) < 3\nend\n", None),
    (
        "script 1\nthread A\nassert --1 + !!r0 * -!1 - 1--1\nend\n",
        None,
    ),
    (
        "script 1\nthread A\nassert (1\nend\n",
        Some((3, BadStatement)),
    ),
    (
        "script 1\nthread A\nassert 1)\nend\n",
        Some((3, BadStatement)),
    ),
    ("script 1\nthread A\nassert\nend\n", Some((3, BadStatement))),
    (
        "script 1\nthread A\nset r0 9223372036854775807 + 1\nend\n",
        None,
    ),
    (
        "script 1\nthread A\nset r0 -9223372036854775808\nend\n",
        Some((3, NumberRange)),
    ),
    (
        "script 1\nthread A\nset r0 9223372036854775808 +\nend\n",
        Some((3, BadStatement)),
    ),
    (
        "script 1\nvar x = - 9223372036854775808\nthread A\nend\n",
        None,
    ),
    (
        "script 1\nvar x = - 9223372036854775809\nthread A\nend\n",
        Some((2, NumberRange)),
    ),
    (
        "script 1\nvar x = 0\nthread A\nadd r0 x 3\ncas r1 x 8, 9\nend\n",
        None,
    ),
    (
        "script 1\nvar x = 0\nthread A\ncas r1 x 8 9\nend\n",
        Some((4, BadStatement)),
    ),
    (
        "script 1\nthread A\nstart B\nend\nthread B\nend\n",
        Some((3, BadStatement)),
    ),
    ("script 2\nthread A\nstart B\nend\nthread B\nend\n", None),
    (
        "script 1\nvar start = 0\nmutex rdlock\nthread rwlock\nlock rdlock\nwrite start 1\nend\n",
        None,
    ),
    (
        "script 2\nvar start = 0\nthread A\nend\n",
        Some((2, BadStatement)),
    ),
    (
        "script 3\nrwlock l\nthread A\nrdlock l\ntrywrlock r0 l\nwrlock l\ntryrdlock r1 l\n\
        rwunlock l\nend\n",
        None,
    ),
    (
        "script 1\nthread aaaaaaaaaaaaaaaaaaaaaaaaaaaaaaaa\nend\n",
        None,
    ),
    (
        "script 1\nthread aaaaaaaaaaaaaaaaaaaaaaaaaaaaaaaaa\nend\n",
        Some((2, BadToken)),
    ),
    (
        "aaaaaaaaaaaaaaaaaaaaaaaaaaaaaaaaa 1\nthread A\nend\n",
        Some((1, BadHeader)),
    ),
    ("script 1\nthread A\nset r0\n", Some((3, BadStatement))),
    (
        "script 1\nthread A\nset r0 9223372036854775808\n",
        Some((3, NumberRange)),
    ),
    (
        "script 1\nthread A\nend\nelse\nthread B\nend\n",
        Some((4, StrayEnd)),
    ),
    ("script 1\nelse\nthread A\nend\n", Some((2, StrayEnd))),
    (
        "script 1\nthread A\nassert 0 && 9223372036854775808\nend\n",
        Some((3, NumberRange)),
    ),
    (
        "script 1\nmutex l\nthread A\nrdlock l\nend\n",
        Some((4, BadStatement)),
    ),
    (
        "script 2\nmutex l\nthread A\nrdlock l\nend\n",
        Some((4, BadStatement)),
    ),
    (
        "script 2\nrwlock l\nthread A\nend\n",
        Some((2, BadStatement)),
    ),
    ("script 2\nvar rwlock = 0\nthread A\nend\n", None),
    (
        "script 3\nvar rwlock = 0\nthread A\nend\n",
        Some((2, BadStatement)),
    ),
    (
        "script 1\nthread A\nread r0 A\nend\n",
        Some((3, UnknownName)),
    ),
    (
        "script 1\nmutex m\nthread A\nread r0 m\nend\n",
        Some((4, UnknownName)),
    ),
    (
        "script 1\nthread A\nyield\nfoo\nread r0 x\nend\n",
        Some((4, BadStatement)),
    ),
    (
        "script 1\nthread A\nwhile 1\nend\nyield\n",
        Some((5, NoEnd)),
    ),
    ("script 1\nthread A\nend\nthread B\n", Some((4, NoEnd))),
    (
        "script 1\nvar x = 0\nthread A\ncas r0 x 1, 2, 3\nend\n",
        Some((4, BadStatement)),
    ),
    (
        "script 1\nmutex m\ncond c\nthread A\nwait m c\nend\n",
        Some((5, UnknownName)),
    ),
];

/// A text in parts, each of which stands in it so many times.
pub type Parts = &'static [(&'static str, usize)];

/// Texts with many blocks, lines or bytes.
pub const LONG_TEXTS: [(Parts, Want); 16] = [
    // 32 nested blocks, and one more
    (
        &[("script 1\nthread A\n", 1), ("if 1\n", 32), ("end\n", 33)],
        None,
    ),
    (
        &[
            ("script 1\nthread A\n", 1),
            ("while 1\n", 33),
            ("end\n", 34),
        ],
        Some((35, TooMany)),
    ),
    (
        &[
            ("script 1\nthread A\n", 1),
            ("if 1\nelse\n", 32),
            ("end\n", 33),
        ],
        None,
    ),
    (
        &[("script 1\nthread A\n", 1), ("if 1\n", 33)],
        Some((35, NoEnd)),
    ),
    // 256 bytes with 124 parentheses, and one byte more
    (
        &[
            ("script 1\nthread A\nassert ", 1),
            ("(", 124),
            ("1", 1),
            (")", 124),
            ("\nend\n", 1),
        ],
        None,
    ),
    (
        &[
            ("script 1\nthread A\nassert ", 1),
            ("(", 124),
            ("1", 1),
            (")", 124),
            (" \nend\n", 1),
        ],
        Some((3, LineTooLong)),
    ),
    (
        &[
            ("script 1\nthread A\nyield", 1),
            (" ", 250),
            ("\r\nend\n", 1),
        ],
        None,
    ),
    (
        &[
            ("script 1\nthread A\nyield", 1),
            (" ", 251),
            ("\r\nend\n", 1),
        ],
        Some((3, LineTooLong)),
    ),
    (
        &[
            ("script 1\nthread A\nyield #", 1),
            ("x", 250),
            ("\nend\n", 1),
        ],
        Some((3, LineTooLong)),
    ),
    (&[(" ", 257), ("\n", 1)], Some((1, LineTooLong))),
    // a thread that begins on a line that is faulty itself
    (
        &[
            ("script 1\nthread A\njoin B\nend\nthread B #", 1),
            ("x", 250),
            ("\nend\n", 1),
        ],
        Some((5, LineTooLong)),
    ),
    (
        &[
            ("script 1\nthread A\njoin B\nend\n", 1),
            ("\n", 4092),
            ("thread B\nend\n", 1),
        ],
        Some((4097, TooManyLines)),
    ),
    (&[("script 1\nthread A\nend\n", 1), ("\n", 4093)], None),
    (
        &[("\n", 4096), ("script 1\n", 1)],
        Some((4097, TooManyLines)),
    ),
    // 1,048,576 bytes, and one more
    (&[("#\n", 524_288)], Some((1, BadHeader))),
    (&[("\n", 1), ("#\n", 524_288)], Some((1, TooMany))),
];

/// How many threads a script of a version has, with what follows them.
pub const THREADS: [(u32, u32, &str, Want); 7] = [
    (1, 16, "", None),
    (1, 17, "", Some((34, TooMany))),
    (2, 16, "", None),
    (2, 17, "", Some((34, TooMany))),
    (3, 64, "", None),
    (3, 65, "", Some((130, TooMany))),
    (1, 16, "thread B\n", Some((34, NoEnd))),
];

/// How many variables a script has, with what follows them.
pub const VARIABLES: [(u32, &str, Want); 3] = [
    (64, "thread A\nend\n", None),
    (65, "thread A\nend\n", Some((66, TooMany))),
    (65, "", Some((66, NoThread))),
];

/// Lines that aren't UTF-8.
pub const NO_TEXTS: [(&[u8], Want); 4] = [
    (b"script 1\nthread A\nend # \xff\n", Some((3, NotUtf8))),
    (b"# \xff\n", Some((1, NotUtf8))),
    (
        b"script 1\nthread A\njoin B\nend\nthread B # \xff\nend\n",
        Some((3, UnknownName)),
    ),
    (b"script 1\nthread A\n\xc3\nfoo\nend\n", Some((3, NotUtf8))),
];

/// Expressions, each with its print.
pub const EXPRESSIONS: [(&str, &str); 8] = [
    ("!r0 == 1", "(!r0 == 1)"),
    ("r0 - r1 - 2", "((r0 - r1) - 2)"),
    ("r0 || r1 && r2 || 3", "((r0 || (r1 && r2)) || 3)"),
    ("1 + 2 * 3 % 4 < 5 - 6", "((1 + ((2 * 3) % 4)) < (5 - 6))"),
    ("--1 + !!r0", "(--1 + !!r0)"),
    ("-!1--1", "(-!1 - -1)"),
    ("1 == 2 && 3 >= 4", "((1 == 2) && (3 >= 4))"),
    ("007 / (1 < 2)", "(7 / (1 < 2))"),
];

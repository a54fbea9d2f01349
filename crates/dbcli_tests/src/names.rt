// How names and words are shown in which a terminal would see more than characters: an escape, a line feed, a control character of two bytes,
// one that turns the text around, and a backslash.
use crate::cases::{Case, run_over};
use std::test::Fail;

// A sound database with both logs, a refused file, one without bytes, and a file that is not there.
const SOUND: &str = "s\x1b[2J\n\u{9b}\u{202e}\\";

const REFUSED: &str = "r\x1b[2J\n\u{9b}\u{202e}\\";

const NO_BYTES: &str = "n\x1b[2J\n\u{9b}\u{202e}\\";

const CASES: [Case; 8] = [
    Case {
        words: "check|s\x1b[2J\n\u{9b}\u{202e}\\",
        calls: "look s\x1b[2J\n\u{9b}\u{202e}\\, look s\x1b[2J\n\u{9b}\u{202e}\\, open s\x1b[2J\n\u{9b}\u{202e}\\, \
            link s\x1b[2J\n\u{9b}\u{202e}\\, look s\x1b[2J\n\u{9b}\u{202e}\\-wal, look s\x1b[2J\n\u{9b}\u{202e}\\-journal, \
            look s\x1b[2J\n\u{9b}\u{202e}\\, ",
        status: 0,
        out: "ok\n",
        err: "",
        notes: "dbck: note: s\\x1b[2J\\x0a\\xc2\\x9b\\xe2\\x80\\xae\\x5c-wal is not read, and may hold changes; --recovered reads it\n\
            dbck: note: s\\x1b[2J\\x0a\\xc2\\x9b\\xe2\\x80\\xae\\x5c-journal is not read, and may undo changes; --recovered reads it\n",
        printed: "",
    },
    Case {
        words: "check|r\x1b[2J\n\u{9b}\u{202e}\\",
        calls: "look r\x1b[2J\n\u{9b}\u{202e}\\, look r\x1b[2J\n\u{9b}\u{202e}\\, open r\x1b[2J\n\u{9b}\u{202e}\\, \
            link r\x1b[2J\n\u{9b}\u{202e}\\, look r\x1b[2J\n\u{9b}\u{202e}\\-wal, look r\x1b[2J\n\u{9b}\u{202e}\\-journal, \
            look r\x1b[2J\n\u{9b}\u{202e}\\, ",
        status: 3,
        out: "",
        err: "dbck: E2 file is not a SQLite 3 database\n",
        notes: "dbck: note: r\\x1b[2J\\x0a\\xc2\\x9b\\xe2\\x80\\xae\\x5c is not checked\n\
            dbck: note: r\\x1b[2J\\x0a\\xc2\\x9b\\xe2\\x80\\xae\\x5c begins with \
            1b 5b 32 4a 0a 20 20 20 20 20 20 20 20 20 20 20  .[2J.           \n",
        printed: "",
    },
    Case {
        words: "map|n\x1b[2J\n\u{9b}\u{202e}\\",
        calls: "look n\x1b[2J\n\u{9b}\u{202e}\\, look n\x1b[2J\n\u{9b}\u{202e}\\, open n\x1b[2J\n\u{9b}\u{202e}\\, \
            link n\x1b[2J\n\u{9b}\u{202e}\\, look n\x1b[2J\n\u{9b}\u{202e}\\-wal, look n\x1b[2J\n\u{9b}\u{202e}\\-journal, \
            look n\x1b[2J\n\u{9b}\u{202e}\\, ",
        status: 3,
        out: "",
        err: "dbck: E1 file is shorter than 100 bytes\n",
        notes: "dbck: note: n\\x1b[2J\\x0a\\xc2\\x9b\\xe2\\x80\\xae\\x5c is not checked\n\
            dbck: note: n\\x1b[2J\\x0a\\xc2\\x9b\\xe2\\x80\\xae\\x5c has no bytes; to SQLite it is an empty database\n",
        printed: "",
    },
    Case {
        words: "stat|m\x1b[2J\n\u{9b}\u{202e}\\",
        calls: "look m\x1b[2J\n\u{9b}\u{202e}\\, look m\x1b[2J\n\u{9b}\u{202e}\\, look m\x1b[2J\n\u{9b}\u{202e}\\, ",
        status: 4,
        out: "",
        err: "dbck: E8 the file cannot be read\n",
        notes: "dbck: note: m\\x1b[2J\\x0a\\xc2\\x9b\\xe2\\x80\\xae\\x5c: No such file or directory\n",
        printed: "",
    },
    Case {
        words: "\x1b[2J\n\u{9b}\u{202e}\\",
        calls: "",
        status: 2,
        out: "",
        err: "",
        notes: "",
        printed: "dbck: unrecognized subcommand '\\x1b[2J\\x0a\\xc2\\x9b\\xe2\\x80\\xae\\x5c'\n",
    },
    Case {
        words: "check|x|\x1b[2J\n\u{9b}\u{202e}\\",
        calls: "",
        status: 2,
        out: "",
        err: "",
        notes: "",
        printed: "dbck: unexpected argument '\\x1b[2J\\x0a\\xc2\\x9b\\xe2\\x80\\xae\\x5c' found\n",
    },
    Case {
        words: "check|--limit|\x1b[2J\n\u{9b}\u{202e}\\|x",
        calls: "",
        status: 2,
        out: "",
        err: "",
        notes: "",
        printed: "dbck: invalid value '\\x1b[2J\\x0a\\xc2\\x9b\\xe2\\x80\\xae\\x5c' for '--limit <N>'",
    },
    Case {
        words: "map|--\x1b[2J\n\u{9b}\u{202e}\\|x",
        calls: "",
        status: 2,
        out: "",
        err: "",
        notes: "",
        printed: "dbck: unexpected argument '--\\x1b[2J\\x0a\\xc2\\x9b\\xe2\\x80\\xae\\x5c' found\n",
    },
];

#[test]
fn shows_names_and_words(rt: HostRuntime) -> Result<(), Fail> {
    let wal = "s\x1b[2J\n\u{9b}\u{202e}\\-wal";
    let journal = "s\x1b[2J\n\u{9b}\u{202e}\\-journal";
    let mut terminal = [b' '; 100];
    terminal[..5].copy_from_slice(b"\x1b[2J\n");
    let others: [(&str, &[u8]); 4] = [
        (wal, b"1"),
        (journal, b"1"),
        (REFUSED, &terminal),
        (NO_BYTES, b""),
    ];
    run_over(&rt, &rt, &[SOUND], &others, &CASES)
}

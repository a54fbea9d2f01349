// Which paths are asked for.
use crate::cases::{Case, run_over};
use std::fs;
use std::test::Fail;

const UNREAD: &str = "dbck: E8 the file cannot be read\n";

// A file is looked at, and opened once, for reading alone; then the logs beside it are looked at, and it is again at the end. Of a file that is
// not opened the system is asked once more, for the reason. No name but the one that is given is tried.
const CASES: [Case; 10] = [
    Case {
        words: "check|x",
        calls: "look x, look x, open x, link x, look x-wal, look x-journal, look x, ",
        status: 0,
        out: "ok\n",
        err: "",
        notes: "",
        printed: "",
    },
    Case {
        words: "explain|./x",
        calls: "look ./x, look ./x, open ./x, link ./x, look ./x-wal, look ./x-journal, look ./x, ",
        status: 0,
        out: "ok\n",
        err: "",
        notes: "",
        printed: "",
    },
    // With its logs: each is looked for after the file was opened, and opened if it is there; at the end it is looked at once more.
    Case {
        words: "check|--recovered|x",
        calls: "look x, look x, open x, link x, look x-journal, link x, look x-wal, link x, look x-journal, look x-wal, look x, ",
        status: 0,
        out: "ok\n",
        err: "",
        notes: "",
        printed: "",
    },
    Case {
        words: "check|--recovered|y",
        calls: "look y, look y, open y, link y, look y-journal, link y, look y-wal, look y-wal, open y-wal, link y, look y-journal, \
look y-wal, look y, look y-wal, ",
        status: 0,
        out: "ok\n",
        err: "",
        notes: "dbck: note: y-wal holds nothing that SQLite would read\n",
        printed: "",
    },
    // There are `missing.sqlite` and `MISSING`.
    Case {
        words: "check|missing",
        calls: "look missing, look missing, look missing, ",
        status: 4,
        out: "",
        err: UNREAD,
        notes: "dbck: note: missing: No such file or directory\n",
        printed: "",
    },
    Case {
        words: "check|folder",
        calls: "look folder, look folder, look folder, ",
        status: 4,
        out: "",
        err: UNREAD,
        notes: "dbck: note: folder: a directory\n",
        printed: "",
    },
    Case {
        words: "check|device",
        calls: "look device, look device, look device, ",
        status: 4,
        out: "",
        err: UNREAD,
        notes: "dbck: note: device: not a regular file: unpack it first\n",
        printed: "",
    },
    Case {
        words: "check|closed",
        calls: "look closed, look closed, open closed, look closed, open closed, ",
        status: 4,
        out: "",
        err: UNREAD,
        notes: "dbck: note: closed: permission denied\n",
        printed: "",
    },
    Case {
        words: "check|growing",
        calls: "look growing, look growing, open growing, link growing, look growing-wal, look growing-journal, look growing, ",
        status: 0,
        out: "ok\n",
        err: "",
        notes: "dbck: note: growing was changed while it was read; the report may be of no state that it had\n",
        printed: "",
    },
    // Words that are not taken open nothing.
    Case {
        words: "check|x|x.sqlite",
        calls: "",
        status: 2,
        out: "",
        err: "",
        notes: "",
        printed: "dbck: unexpected argument 'x.sqlite' found\n",
    },
];

#[test]
fn asks_for_the_path_that_is_named(rt: HostRuntime) -> Result<(), Fail> {
    fs::create_dir(&rt, "folder")?;
    let databases = [
        "x",
        "x.sqlite",
        "y",
        "y-wal",
        "missing.sqlite",
        "MISSING",
        "growing",
    ];
    run_over(&rt, &rt, &databases, &[], &CASES)?;
    fs::remove_dir(&rt, "folder")?;
    Ok(())
}

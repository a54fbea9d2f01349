// The texts of help: what each command does, at the top, and examples, at the end.

pub(crate) const ABOUT: &str =
    "Check the structure of a SQLite 3 database file, which is only read";

pub(crate) const CHECK_ABOUT: &str = "Print a line for each fault of the file, or 'ok'";

pub(crate) const CHECK_EXAMPLES: &str = "Examples:
  dbck check notes.db            The first 100 faults of notes.db, or 'ok'
  dbck check --limit 1 notes.db  The first fault, and how many more there are
  dbck check -- -notes.db        A file whose name begins with '-'
  dbck check --with 1526=00000007 notes.db
                                 The faults that notes.db would have with the bytes 00 00 00 07
                                 at offset 1526; nothing is written to it

'dbck --help' lists the exit statuses.";

pub(crate) const EXPLAIN_ABOUT: &str =
    "Print each injury, a group of faults with probably one cause: its place, cause and size; and a summary";

pub(crate) const EXPLAIN_EXAMPLES: &str =
    "Below each fault: where its pages are, what it goes back to, and how many faults belong to it.
After the last: how many faults there are, by code and by tree, and how many trees have none.

Examples:
  dbck explain notes.db             The first 100 injuries of notes.db, or 'ok'
  dbck explain --limit 1 notes.db   The first injury, and the summary of all

'dbck --help' lists the exit statuses.";

pub(crate) const MAP_ABOUT: &str =
    "Print a picture of the pages, an SVG: each page in the colour of its tree";

pub(crate) const MAP_EXAMPLES: &str =
    "The picture is written to standard output, and no line of a fault. The status is that of check.

Example:
  dbck map notes.db > notes.svg  A picture for a browser

'dbck --help' lists the exit statuses.";

pub(crate) const MEND_ABOUT: &str =
    "Print changes of single numbers with which the file would have fewer faults, or none; it stays as it is";

pub(crate) const MEND_EXAMPLES: &str =
    "For each change: its offset, from 0, the bytes to put there, and those that FILE has there now;
below it its page, and how many faults would be left then. The last line is 'ok' if none is. Even
then rows may be wrong: look at those of the pages with changes. With --recovered the bytes are
those of the recovered database: let SQLite write the log into a copy of FILE before you put them
there.

Examples:
  dbck mend notes.db            At most 8 changes, each found by runs over notes.db with other bytes
  dbck mend --limit 1 notes.db  One change
  dbck check --with 1526=00000007 notes.db
                                The faults that notes.db would have with a change that was found

The status is that of check. 'dbck --help' lists the exit statuses.";

pub(crate) const STAT_ABOUT: &str =
    "Print a row for each page of a tree, and the faults to standard error";

pub(crate) const STAT_EXAMPLES: &str = "Columns, separated by tabs:
  name path pageno pagetype ncell payload unused mx_payload pgoffset pgsize
ncell counts cells, also those of interior pages: it is no count of rows.

Examples:
  dbck stat notes.db              A row for each page of a tree or an overflow chain
  dbck stat --aggregate notes.db  A row for each tree
  dbck stat --all notes.db        Each page of notes.db is in one row

'dbck --help' lists the exit statuses.";

pub(crate) const STATUSES: &str = "Exit status:
  0  no fault was found, or help or the version was asked for
  1  the file has faults
  2  the command line is wrong
  3  the file is not a database that dbck checks (E1 to E7), ends before a byte of --with, or does not fit its log (E11)
  4  the file cannot be read (E8)
  5  out of memory (E9)
  6  the output cannot be written (E10)";

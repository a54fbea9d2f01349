//! Answers the rows of a table on standard input, by `dbbytes` and `dbpage`. Of each that is answered otherwise it prints the row and the
//! answer, and at the end how many rows there are, and how many of them differ. A test of what pages and records are by examples: the
//! answers in the table were worked out by hand, or are SQLite's own (`sqlite_pages/make.sh`).
//!
//! A row is a line that has a question, ` =` and the answer. Bytes are spelled by hexadecimal digits, and by letters between two of `'`;
//! `61*9` is a byte nine times. A line that begins with `#` is left out, and so is an empty one.
//!
//! | Question | Answer |
//! |---|---|
//! | `varint BYTES` | the number that begins them, and its length |
//! | `serial N` | how many bytes a column of this serial type has |
//! | `local KIND USABLE N` | how many of the N bytes of a payload are in the cell of a `table` leaf or of an `index` |
//! | `use SIZE N plain P` | the fixed use of page P of N, and the map page that has its entry; `mapped` in place of `plain` where there is a map |
//! | `record ENCODING N: BYTES` | the row of the schema whose record has N bytes, in any pieces; with `\|` between pieces, the one after each |
//! | `name ENCODING BYTES` | how a name is shown, of which a beginning is put where there is too little room |
//! | `plain ENCODING BYTES` | the same where it must not turn a line around |
//! | `error NAME` | what a program shows that passes this error on |
//! | a word of [`pages`] | what is read of the page that the lines before it spell |
//!
//! Such a line is `page P of N`, page P of zeros with N usable bytes, or `at OFFSET BYTES`, which writes over it.
#![tactic(auto)]

mod errors;
mod names;
mod numbers;
mod pages;
mod records;
mod spelled;

use arrayvec::ArrayString;
use pages::Page;
use std::alloc::Global;
use std::fmt::Write;
use std::io;

/// A row with what is answered. What has no room is left out, so that the row differs.
pub(crate) type Text = ArrayString<2048>;

// Adds the answer to a question. None where it is no question.
fn answer(alloc: Global, page: &mut Page, question: &str, text: &mut Text) -> Option<()> {
    let (word, of) = question.split_once(' ')?;
    match word {
        "varint" => numbers::add_varint(of, text),
        "serial" => numbers::add_serial(of, text),
        "local" => numbers::add_local(of, text),
        "use" => numbers::add_use(of, text),
        "record" => records::add_rows(of, text),
        "name" => names::add_name(alloc, of, false, text),
        "plain" => names::add_name(alloc, of, true, text),
        "error" => errors::add_error(alloc, of, text),
        _ => page.add_part(word, text),
    }
}

// A line as it is answered: a row with the answer to its question, or one that writes the page.
fn answered(alloc: Global, page: &mut Page, line: &str) -> Text {
    let mut text = Text::new();
    let (question, is_row) = match line.split_once('=') {
        Some((question, _)) => (question, true),
        None => (line, false),
    };
    let _ = text.try_push_str(question);
    let found = if is_row {
        let _ = text.try_push('=');
        answer(alloc, page, question, &mut text)
    } else {
        page.write(line)
    };
    if found.is_none() {
        let _ = text.try_push_str(" unreadable");
    }
    text
}

/// How many rows there were, and how many lines were answered otherwise.
#[derive(Drop)]
struct Tally {
    rows: u64,
    differ: u64,
}

impl Tally {
    fn take(
        &mut self,
        rt: &(impl Print + AllocGlobal),
        page: &mut Page,
        line: &str,
    ) -> io::Result<()> {
        if line.is_empty() || line.starts_with('#') {
            return Ok(());
        }
        if line.contains('=') {
            self.rows = self.rows.saturating_add(1);
        }
        let text = answered(rt.alloc(), page, line);
        if text.as_str() == line {
            return Ok(());
        }
        self.differ = self.differ.saturating_add(1);
        println!(rt; "{line}\n    is answered {text}")
    }
}

fn main(rt: HostRuntime) -> io::Result<()> {
    let mut page = Page::new(rt.alloc())?;
    let mut tally = Tally { rows: 0, differ: 0 };
    for line in rt.lines(rt.alloc()) {
        let line = line?;
        tally.take(&rt, &mut page, &line)?;
    }
    println!(rt; "{} rows, {} differ", tally.rows, tally.differ)
}

// The statistics of a file.
mod columns;
mod hex;
mod lines;
mod other_pages;
mod page_texts;
mod reporter;
mod sums;
mod tree_name;

pub(crate) use crate::statistics::reporter::StatReporter;

/// A form of the statistics: whether the rows of a tree are added up, and whether the other pages are shown.
#[derive(Clone, Copy)]
pub(crate) struct Form {
    pub(crate) aggregate: bool,
    pub(crate) all: bool,
}

// What is written of some samples.

/// The line of a header whose file version is 3.
pub(crate) const OLD_VERSION: &str = "H01 page 1 item 18 value 3: file version is not 1 or 2\n";

/// The rows of the sample after a pointer map, in which each tab is written `|`, with those of other pages.
pub(crate) const MAPPED_ROWS: &str = "sqlite_schema|/|1|leaf|1|14|386|14|0|512\n\
    t|/|3|leaf|1|92|403|600|1024|512\n\
    t|/000+000000|4|overflow|0|508|0|0|1536|512\n\
    -|-|2|map|0|0|0|0|512|512\n";

/// The rows of the sample of one table and its row on an overflow page, in which each tab is written `|`.
pub(crate) const LONG_ROW_ROWS: &str = "sqlite_schema|/|1|leaf|1|14|386|14|0|512\n\
    t|/|2|leaf|1|92|403|600|512|512\n\
    t|/000+000000|3|overflow|0|508|0|0|1024|512\n";

/// The rows of a ladder of 20 pages, in which each tab is written `|`. Free on a page is what lies between the pointer array,
/// which ends at byte 112 of page 1, at 12 of an interior page and at 8 of the leaf, and byte 512.
pub(crate) const DEEP_ROWS: &str = "sqlite_schema|/|1|internal|0|0|400|0|0|512\n\
    sqlite_schema|/000/|2|internal|0|0|500|0|512|512\n\
    sqlite_schema|/000/000/|3|internal|0|0|500|0|1024|512\n\
    sqlite_schema|/000/000/000/|4|internal|0|0|500|0|1536|512\n\
    sqlite_schema|/000/000/000/000/|5|internal|0|0|500|0|2048|512\n\
    sqlite_schema|/000/000/000/000/000/|6|internal|0|0|500|0|2560|512\n\
    sqlite_schema|/000/000/000/000/000/000/|7|internal|0|0|500|0|3072|512\n\
    sqlite_schema|/000/000/000/000/000/000/000/|8|internal|0|0|500|0|3584|512\n\
    sqlite_schema|/000/000/000/000/000/000/000/000/|9|internal|0|0|500|0|4096|512\n\
    sqlite_schema|/000/000/000/000/000/000/000/000/000/|10|internal|0|0|500|0|4608|512\n\
    sqlite_schema|/000/000/000/000/000/000/000/000/000/000/|11|internal|0|0|500|0|5120|512\n\
    sqlite_schema|/000/000/000/000/000/000/000/000/000/000/000/|12|internal|0|0|500|0|5632|512\n\
    sqlite_schema|/000/000/000/000/000/000/000/000/000/000/000/000/|13|internal|0|0|500|0|6144|512\n\
    sqlite_schema|/000/000/000/000/000/000/000/000/000/000/000/000/000/|14|internal|0|0|500|0|6656|512\n\
    sqlite_schema|/000/000/000/000/000/000/000/000/000/000/000/000/000/000/|15|internal|0|0|500|0|7168|512\n\
    sqlite_schema|/000/000/000/000/000/000/000/000/000/000/000/000/000/000/000/|16|internal|0|0|500|0|7680|512\n\
    sqlite_schema|/000/000/000/000/000/000/000/000/000/000/000/000/000/000/000/000/|17|internal|0|0|500|0|8192|512\n\
    sqlite_schema|/000/000/000/000/000/000/000/000/000/000/000/000/000/000/000/000/000/|18|internal|0|0|500|0|8704|512\n\
    sqlite_schema|/000/000/000/000/000/000/000/000/000/000/000/000/000/000/000/000/000/000/|19|internal|0|0|500|0|9216|512\n\
    sqlite_schema|/000/000/000/000/000/000/000/000/000/000/000/000/000/000/000/000/000/000/000/|20|leaf|0|0|504|0|9728|512\n";

/// What is reported of pages 2 to 20 of a ladder.
pub(crate) const EMPTY_PAGES: &str = "P10 page 2 item 0 value 0: empty page that is not a root\n\
    P10 page 3 item 0 value 0: empty page that is not a root\n\
    P10 page 4 item 0 value 0: empty page that is not a root\n\
    P10 page 5 item 0 value 0: empty page that is not a root\n\
    P10 page 6 item 0 value 0: empty page that is not a root\n\
    P10 page 7 item 0 value 0: empty page that is not a root\n\
    P10 page 8 item 0 value 0: empty page that is not a root\n\
    P10 page 9 item 0 value 0: empty page that is not a root\n\
    P10 page 10 item 0 value 0: empty page that is not a root\n\
    P10 page 11 item 0 value 0: empty page that is not a root\n\
    P10 page 12 item 0 value 0: empty page that is not a root\n\
    P10 page 13 item 0 value 0: empty page that is not a root\n\
    P10 page 14 item 0 value 0: empty page that is not a root\n\
    P10 page 15 item 0 value 0: empty page that is not a root\n\
    P10 page 16 item 0 value 0: empty page that is not a root\n\
    P10 page 17 item 0 value 0: empty page that is not a root\n\
    P10 page 18 item 0 value 0: empty page that is not a root\n\
    P10 page 19 item 0 value 0: empty page that is not a root\n\
    P10 page 20 item 0 value 0: empty page that is not a root\n";

//! The vocabulary of a checker of SQLite database files: the plain types that the definitions in
//! `specs/` and the crates of the checker have in common, and theorems on these definitions.
//!
//! ```
//! let fault = Fault::new(FaultCode::H03, 1, 0, u32_at(header, 44));
//! ```
#![tactic(auto)]

ghost use Rattle.std.specs.Prelude.{◌≡◌, ℕ, List, length, pos};
ghost use Rattle.dbformat.specs.Coverage.{AreFreeblocksAll};
ghost use Rattle.dbformat.specs.Faults.{fault};
ghost use Rattle.dbformat.specs.Head.{View, is_interior};
ghost use Rattle.dbformat.specs.Errands.{IsByCell, IsNoneAtDamage, IsOneCellMore, IsByReading, IsByChain};
ghost use Rattle.dbformat.specs.Errands.{IsByLeaf, IsOneLeafMore, IsNoneAtFreeLeaf, AreAllQuiet};
ghost use Rattle.dbformat.specs.Errands.{AreCellsApart};
ghost use Rattle.dbformat.specs.Laws.{HasOneSurvey, FollowsTheUnrefused, IsRefusedByMarks, IsInTheTheory, IsReportedInOrder, LooksBackAlone};
ghost use Rattle.dbformat.specs.Laws.{IsByStarts, IsSchemaBelowItsStart, FollowsAllWhereFaultless, HasWholeChains};
ghost use Rattle.dbformat.specs.Lines.{counted};
ghost use Rattle.dbformat.specs.Log.{RunsReadOnce};
ghost use Rattle.dbformat.specs.Report.{verdict, verdict_of};
ghost use Rattle.dbformat.specs.Samples.{long_row_file};
ghost use Rattle.dbformat.specs.Sound.{Sound};
ghost use Rattle.dbformat.specs.declared.Fault.{Fault};

mod ascii;
mod codes;
mod counts;
mod fixed_pages;
mod hex;
mod numbers;
mod starts;

pub use ascii::shown_byte;
pub use codes::codes_are_listed;
pub use counts::Counts;
pub use hex::{hex_byte, hex_digit};
pub use numbers::{u16_at, u32_at};
pub use starts::{FREELIST_START, MOST_ROOTS, SCHEMA_START};
use thiserror::Error;

/// What is wrong with a file that is read. Each variant is the code that a fault line begins with.
#[derive(Clone, Copy, Debug)]
pub enum FaultCode {
    /// File version is not 1 or 2.
    H01,
    /// Payload fraction is not the fixed one.
    H02,
    /// Schema format above 4.
    H03,
    /// Text encoding above 3.
    H04,
    /// Reserved header byte is not zero.
    H05,
    /// File is shorter than its stated size.
    H06,
    /// Incremental vacuum without a pointer map.
    H07,
    /// Schema has rows but no format or encoding.
    H08,
    /// Greatest root page differs from the header.
    H09,
    /// Freelist count differs from the header.
    H10,
    /// Unknown page type.
    P01,
    /// Page belongs to the other kind of tree.
    P02,
    /// Content area out of bounds.
    P03,
    /// More than 60 fragmented bytes.
    P04,
    /// Cell offset out of bounds.
    P05,
    /// Cell cannot be read.
    P06,
    /// Bad freeblock.
    P07,
    /// Overlapping bytes.
    P08,
    /// Fragmented bytes differ from the count.
    P09,
    /// Empty page that is not a root.
    P10,
    /// Page number out of range.
    R01,
    /// Page is reserved for a fixed use.
    R02,
    /// Page is already in use.
    R03,
    /// Tree is deeper than 20 pages.
    T04,
    /// Leaf at another depth.
    T05,
    /// Key out of order.
    T06,
    /// Last overflow page names a next page.
    O01,
    /// Trunk holds too many leaves.
    L01,
    /// Schema row cannot be read.
    S01,
    /// Name cannot be shown.
    S02,
    /// Root page or type is wrong.
    S03,
    /// More than 65536 root pages.
    S04,
    /// Page is not in use.
    N01,
    /// Pointer map entry differs.
    M01,
    /// Root page after a page that is no root.
    M02,
}

/// One fault: its code, the page and the item at which it was found, and the value found there.
#[derive(Clone, Copy)]
pub struct Fault {
    pub code: FaultCode,
    pub page: u32,
    pub item: u32,
    pub value: i64,
}

impl Fault {
    /// The fault of an item of a page, where this number was found.
    pub fn new(code: FaultCode, page: u32, item: u32, value: u32) -> Fault
        ensures { result ≡ fault code page item (pos value) }
    {
        Fault {
            code,
            page,
            item,
            value: i64::from(value),
        }
    }
}

/// Why a file is not read at all.
#[derive(Clone, Copy, Debug, Error, PartialEq, Eq)]
pub enum Refusal {
    /// The file is shorter than its header.
    #[error("E1 file is shorter than 100 bytes")]
    Short,
    /// It does not begin as a SQLite 3 database does.
    #[error("E2 file is not a SQLite 3 database")]
    Magic,
    /// The page size is not valid.
    #[error("E3 page size is not valid")]
    PageSize,
    /// The usable size is below 480.
    #[error("E4 usable size is below 480")]
    Usable,
    /// There is no whole page.
    #[error("E5 file has no whole page")]
    NoPage,
    /// There are more pages than the checker takes.
    #[error("E6 file has more than 67108864 pages")]
    TooManyPages,
    /// The lock-byte page is at the position of a pointer-map page.
    #[error("E7 pointer map at the lock-byte page")]
    MapAtLock,
}

/// What the header and the file's length say of all pages.
#[derive(Clone, Copy)]
pub struct Geometry {
    /// The bytes of a page: a power of two from 512 to 65536.
    pub page_size: u32,
    /// The bytes of a page that structures use, from its first on: 480 at least.
    pub usable: u32,
    /// How many pages there are, numbered from 1: 1 to 67108864.
    pub pages: u32,
    /// Whether there is a pointer map.
    pub has_map: bool,
}

/// A range of a source's bytes, by its first byte and its length.
#[derive(Clone, Copy, Default)]
pub struct ByteRange {
    pub offset: u64,
    pub len: u64,
}

/// How texts of the file are stored.
#[derive(Clone, Copy)]
pub enum Encoding {
    Utf8,
    Utf16le,
    Utf16be,
}

/// The use of a page that the file's layout fixes.
#[derive(Clone, Copy, PartialEq, Eq)]
pub enum Fixed {
    Lock,
    Map,
}

/// The two kinds of b-tree.
#[derive(Clone, Copy)]
pub enum TreeKind {
    Table,
    Index,
}

/// The four kinds of b-tree page.
#[derive(Clone, Copy, Debug)]
pub enum PageKind {
    InteriorIndex,
    InteriorTable,
    LeafIndex,
    LeafTable,
}

impl PageKind {
    /// Whether pages of this kind have children.
    #[inline(always)]
    pub fn is_interior(self) -> bool
        ensures { result ≡ is_interior self }
    {
        match self {
            PageKind::InteriorIndex | PageKind::InteriorTable => true,
            PageKind::LeafIndex | PageKind::LeafTable => false,
        }
    }
}

/// The two rules that say how much of a payload is in its cell.
#[derive(Clone, Copy)]
pub enum PayloadKind {
    TableLeaf,
    Index,
}

/// Why the head of a b-tree page is not sound.
#[derive(Clone, Copy, Debug, Error, PartialEq, Eq)]
pub enum HeadFault {
    /// The type is none of the four.
    #[error("unknown page type")]
    UnknownType,
    /// The content area begins before the end of the cell pointers, or past the usable bytes.
    #[error("content area out of bounds")]
    ContentStart,
}

/// Why a cell holds nothing.
#[derive(Clone, Copy, Debug, Error, PartialEq, Eq)]
pub enum CellFault {
    /// Its pointer leads out of the content area.
    #[error("cell offset out of bounds")]
    Offset,
    /// It does not end within the usable bytes, or its payload is too long.
    #[error("cell cannot be read")]
    Unreadable,
}

/// What the items of a page hold of its content area.
#[derive(Clone, Copy, Debug, PartialEq, Eq)]
pub enum Coverage {
    /// The first item that holds a byte of an item before it.
    Overlap(u32),
    /// No two items share a byte; the number is that of the bytes that none holds.
    Unheld(u32),
}

/// The types of a schema row.
#[derive(Clone, Copy, Debug, PartialEq, Eq)]
pub enum RowKind {
    Table,
    Index,
    View,
    Trigger,
}

/// Why a schema row is not taken.
#[derive(Clone, Copy, Debug, Error, PartialEq, Eq)]
pub enum RowFault {
    /// It is no record of five columns.
    #[error("schema row cannot be read")]
    Malformed,
    /// Its type or root page is wrong. The number is the root page, 0 where that is no integer.
    #[error("root page {0} or type is wrong")]
    Root(i64),
}

/// The first and the last rowid of a leaf.
#[derive(Clone, Copy, Debug)]
pub struct Rowids {
    pub first: i64,
    pub last: i64,
}

/// A page whose head is that of a page of a tree.
#[derive(Clone, Copy, Debug)]
pub struct TreeLook {
    pub kind: PageKind,
    /// How many cells it has, readable or not.
    pub cells: u32,
    /// Of a leaf of a table whose first and last cell can be read as far as their rowid: these two.
    pub rowids: Option<Rowids>,
}

/// A run of one byte in a page.
#[derive(Clone, Copy)]
pub struct ByteRun {
    /// Its first byte, from the start of the page.
    pub start: u32,
    /// How many bytes it has.
    pub len: u32,
    /// The byte.
    pub byte: u8,
}

/// What a page looks like by its bytes alone, whatever refers to it.
#[derive(Clone, Copy, Debug)]
pub enum Look {
    /// All its usable bytes are this one.
    Blank(u8),
    /// Its head is that of a page of a tree.
    Tree(TreeLook),
    /// Neither: its first 16 bytes.
    Other([u8; 16]),
}

/// What a row of the statistics is of: an undamaged page of a tree, by its kind, a damaged one, or an overflow page.
#[derive(Clone, Copy, Debug)]
pub enum PageType {
    Tree(PageKind),
    Damaged,
    Overflow,
}

/// What is asked of a file.
#[derive(Clone, Copy, PartialEq, Eq)]
pub enum Command {
    /// The fault lines, at most `limit`, and then how many more there are.
    Check { limit: u32 },
    /// The rows of the statistics, and all fault lines: with `aggregate` one row for each tree in place of its pages, with
    /// `all` also a row for each page that is in no tree and in no overflow chain.
    Stat { aggregate: bool, all: bool },
}

/// What was found: no fault, or the number of faults.
#[derive(Clone, Copy, PartialEq, Eq)]
pub enum Verdict {
    Clean,
    Faulty(u64),
}

impl Verdict {
    /// The verdict of a count of faults. The count is that of all, or the greatest number of 64 bits where there are more.
    #[inline(always)]
    pub fn of(count: u64) -> Verdict
        ensures count { result ≡ verdict_of count }
        ensures faults { (fs : List Fault) → count ≡ counted (length fs) → result ≡ verdict fs }
    {
        match count {
            0 => Verdict::Clean,
            count => Verdict::Faulty(count),
        }
    }
}

/// A file has one survey: there is one, which a traversal finds, and no other. A reference of a start or of a visited
/// page is in it exactly if no test refuses it.
pub fn one_survey()
    ensures one { (file : List ℕ) → HasOneSurvey file }
    ensures followed { (file : List ℕ) → FollowsTheUnrefused file }
    ensures by_marks { (file : List ℕ) → IsRefusedByMarks file }
{}

/// The rules and the story of each file are those of the theory. What is reported of its survey has one order, that of
/// places, in which a traversal reports it. The faults of pages and references and the rows come in this order.
pub fn reported_in_order()
    ensures theory { (file : List ℕ) → IsInTheTheory file }
    ensures reported { (file : List ℕ) → IsReportedInOrder file }
{}

/// Faults look back only: each rests on the pages visited up to its place. So they can be reported during the walk,
/// below page 1 first and then below the starts that this part gives.
pub fn faults_look_back()
    ensures back { (file : List ℕ) → LooksBackAlone file }
    ensures starts { (file : List ℕ) → IsByStarts file }
{}

/// The list of a page's good freeblocks ends before one that is not good, and never because the bound on its length is
/// reached.
pub fn freeblocks_end()
    ensures { (v : View) → AreFreeblocksAll v }
{}

/// What a visited page leads to, item by item: a tree page by its cells, an overflow page by its chain, a trunk by its
/// leaves.
pub fn errands_of_pages()
    ensures by_cell { (file : List ℕ) → IsByCell file }
    ensures damaged { (file : List ℕ) → IsNoneAtDamage file }
    ensures more { IsOneCellMore }
    ensures reading { IsByReading }
    ensures by_chain { (file : List ℕ) → IsByChain file }
    ensures by_leaf { (file : List ℕ) → IsByLeaf file }
    ensures one_leaf_more { IsOneLeafMore }
    ensures free_leaf { (file : List ℕ) → IsNoneAtFreeLeaf file }
    ensures quiet { AreAllQuiet }
    ensures apart { AreCellsApart }
{}

/// The rows of the schema, and so the starts, rest on the pages below the first start alone.
pub fn schema_below_its_start()
    ensures { (file : List ℕ) → IsSchemaBelowItsStart file }
{}

/// Where pages and references have no fault, each reference is followed, each page and cell is without fault, and each
/// overflow page that is visited begins a whole chain.
pub fn faultless_files_are_followed()
    ensures all { (file : List ℕ) → FollowsAllWhereFaultless file }
    ensures chains { (file : List ℕ) → HasWholeChains file }
{}

/// A file of one table with a row on an overflow page is sound.
pub fn long_row_is_sound()
    ensures { Sound long_row_file }
{}

/// In the log of a run page 1 is read at most twice, once of these by its header, and every other page at most once.
pub fn runs_read_once()
    ensures { RunsReadOnce }
{}

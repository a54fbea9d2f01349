// Reading a rollback journal: once, in order, from its start.
ghost use Rattle.std.specs.Prelude.{◌≡◌, ◌+◌, ◌%◌, ◌^◌, ◌<◌, ◌≤◌, ◌&&◌, IfOk, IfSome, IsTrue, length};
ghost use Rattle.std.specs.List.{AllPairs};
ghost use Rattle.dbsource.specs.Sources.{AreBytes};
ghost use Rattle.dblog.specs.Journal.{IsSized, has_magic, is_shape};
ghost use Rattle.dblog.specs.JournalReading.{FindsPlace, KeepsRecord, MovesOn, ReadsAfterHead, ReadsJournal, ReadsPlaces, ReadsRecords, ReadsWithin};
ghost use Rattle.dblog.specs.Placed.{journal_pages};
ghost use Rattle.dblog.specs.Reading.{longest_read};

use crate::cold::Cold;
use crate::entry::Entry;
use crate::gathered::Gathered;
use crate::journal::{HEAD_LEN, Place, Shape, has_magic};
use crate::journal_error::JournalError;
use crate::log_pages::LogPages;
use dbformat::u32_at;
use dbsource::{Source, memory};
use std::alloc::{Allocator, Global};
use std::marker::Model;

// A journal is no shorter, and a longer one is not read.
const LEAST_LEN: u64 = 512;

const MOST_LEN: u64 = 1 << 35;

// In a record the page comes after its number.
const NUMBER_LEN: u32 = 4;

// The places of records are kept in units of eight bytes.
const UNIT_LEN: u32 = 8;

// Reads these bytes from byte `at` on, if the journal has them, and answers whether it has.
fn read_within<S: Source>(
    journal: &mut S,
    len: u64,
    at: u64,
    piece: &mut [u8],
) -> Result<bool, JournalError>
    requires within { at ≤ len }
    requires short { length piece.old ≤ longest_read }
    ensures { ReadsWithin S.step len at result piece.new (S.held journal.old) (S.held journal.new) }
{
    if len - at < piece.len() as u64 {
        return Ok(false);
    }
    journal.read_at(at, piece)?;
    Ok(true)
}

// Reads up to the next sector.
fn read_gap<S: Source>(
    journal: &mut S,
    shape: Shape,
    place: &mut Place,
    buffer: &mut [u8],
) -> Result<bool, JournalError>
    requires sized { IsSized shape }
    requires room { shape.sector ≤ length buffer.old }
    requires within { place.old.at ≤ shape.len }
    requires between { 0 < place.old.at % shape.sector }
    requires none { place.old.left ≡ 0 }
    ensures { FindsPlace S.step shape result (S.held journal.old) (S.held journal.new) place.old place.new }
{
    let gap = shape.gap(place.at());
    if !read_within(
        journal,
        shape.len(),
        place.at(),
        &mut buffer[..gap as usize],
    )? {
        return Ok(false);
    }
    *place = place.further(gap);
    Ok(true)
}

// Reads the head of the next segment.
fn read_head<S: Source>(
    journal: &mut S,
    shape: Shape,
    place: &mut Place,
    buffer: &mut [u8],
) -> Result<bool, JournalError>
    requires sized { IsSized shape }
    requires room { shape.sector ≤ length buffer.old }
    requires within { place.old.at ≤ shape.len }
    requires at { place.old.at % shape.sector ≡ 0 }
    requires none { place.old.left ≡ 0 }
    ensures { FindsPlace S.step shape result (S.held journal.old) (S.held journal.new) place.old place.new }
{
    let head = &mut buffer[..shape.sector() as usize];
    if !read_within(journal, shape.len(), place.at(), head)? {
        return Ok(false);
    }
    if !has_magic(head) {
        return Ok(false);
    }
    *place = shape.place_after(head, place.at());
    Ok(true)
}

// Reads the next record, and gathers it.
fn read_record<S: Source, A: Allocator>(
    journal: &mut S,
    shape: Shape,
    place: &mut Place,
    buffer: &mut [u8],
    gathered: &mut Gathered<A>,
) -> Result<bool, JournalError>
    requires sized { IsSized shape }
    requires room { shape.page_size + 8 ≤ length buffer.old }
    requires within { place.old.at ≤ shape.len }
    requires fits { shape.len < 2 ^ 35 }
    requires some { 0 < place.old.left }
    ensures { KeepsRecord S.step shape result (S.held journal.old) (S.held journal.new) place.old place.new gathered.old gathered.new }
{
    let count = shape.record_len();
    let bytes = &mut buffer[..count];
    if !read_within(journal, shape.len(), place.at(), bytes)? {
        return Ok(false);
    }
    if !shape.is_record(place.nonce(), bytes) {
        return Ok(false);
    }
    gathered.add(u32_at(bytes, 0), place.unit(), true)?;
    *place = place.after_record(count as u64);
    Ok(true)
}

// Looks for the next place.
fn read_next<S: Source, A: Allocator>(
    journal: &mut S,
    shape: Shape,
    place: &mut Place,
    buffer: &mut [u8],
    gathered: &mut Gathered<A>,
) -> Result<bool, JournalError>
    requires sized { IsSized shape }
    requires sector { shape.sector ≤ length buffer.old }
    requires long { shape.page_size + 8 ≤ length buffer.old }
    requires within { place.old.at ≤ shape.len }
    requires fits { shape.len < 2 ^ 35 }
    ensures { MovesOn S.step shape result (S.held journal.old) (S.held journal.new) place.old place.new gathered.old gathered.new }
{
    if place.left() > 0 {
        return read_record(journal, shape, place, buffer, gathered);
    }
    if place.at() % u64::from(shape.sector()) > 0 {
        read_gap(journal, shape, place, buffer)
    } else {
        read_head(journal, shape, place, buffer)
    }
}

// Reads all that comes after the first head, and gathers its records.
fn read_places<S: Source, A: Allocator>(
    journal: &mut S,
    shape: Shape,
    first: Place,
    buffer: &mut [u8],
    gathered: &mut Gathered<A>,
) -> Result<(), JournalError>
    requires sized { IsSized shape }
    requires sector { shape.sector ≤ length buffer.old }
    requires long { shape.page_size + 8 ≤ length buffer.old }
    requires within { first.at ≤ shape.len }
    requires eighth { first.at % 8 ≡ 0 }
    requires fits { shape.len < 2 ^ 35 }
    ensures { ReadsPlaces S.step shape result (S.held journal.old) (S.held journal.new) first gathered.old gathered.new }
{
    let mut place = first;
    let mut goes_on = true;
    while goes_on {
        goes_on = read_next(journal, shape, &mut place, buffer, gathered)?;
    }
    Ok(())
}

// Reads what comes after the first head: the rest of its sector, and then the records.
fn read_records<S: Source, A: Allocator + Copy>(
    alloc: A,
    journal: &mut S,
    shape: Shape,
    head: &[u8],
) -> Result<Vec<Entry, A>, JournalError>
    requires head { 28 ≤ length head.now }
    requires sized { IsSized shape }
    requires fits { shape.len < 2 ^ 35 }
    ensures reads { ReadsRecords S.step shape head.now result (λ v. v.items) (S.held journal.old) (S.held journal.new) }
    ensures rising { IfOk result (λ v. AllPairs (λ d e. d.page < e.page) v.items) }
{
    let sector = shape.sector() as usize;
    let mut bytes = memory::filled(alloc, 0u8, sector.max(shape.record_len()))?;
    let buffer = bytes.as_mut_slice();
    let mut gathered = Gathered::new(alloc);
    journal.read_at(HEAD_LEN as u64, &mut buffer[..sector - HEAD_LEN])?;
    let first = shape.place_after(head, 0);
    read_places(journal, shape, first, buffer, &mut gathered)?;
    Ok(gathered.into_index())
}

/// What is used of a rollback journal: the pages that the database had, the size of a page, and in units of eight bytes where the last record
/// of each page begins.
#[derive(Drop)]
pub struct Journal<A: Allocator = Global> {
    shape: Shape,
    entries: Vec<Entry, A>,
}

impl<A: Allocator> Model for Journal<A> {
    ghost use Rattle.std.specs.Prelude.{◌<◌};
    ghost use Rattle.std.specs.List.{AllPairs};
    ghost use Rattle.dblog.specs.Journal.{IsSized};
    ghost use Rattle.dblog.specs.JournalReading.{JournalIndexed};

    ghost Value = { JournalIndexed };

    ghost view = { λ j. record { shape = j.shape; entries = j.entries.items } };

    ghost invariant = { λ j. IsSized j.shape × AllPairs (λ d e. d.page < e.page) j.entries.items };
}

// Whether this is the first head of a journal of this shape.
fn is_journal(head: &[u8], shape: Shape) -> bool
    requires { 28 ≤ length head.now }
    ensures is { result ≡ (has_magic head.now && is_shape shape) }
    ensures sized { IsTrue result → IsSized shape }
{
    has_magic(head) && shape.is_shape()
}

// Reads what comes after the first 28 bytes of a journal of `len` bytes.
fn read_after_head<S: Source, A: Allocator + Copy>(
    alloc: A,
    journal: &mut S,
    head: &[u8],
    len: u64,
    stored: u32,
) -> Result<Result<Journal<A>, Cold>, JournalError>
    requires head { length head.now ≡ 28 }
    requires len { 512 ≤ len }
    requires fits { len < 2 ^ 35 }
    ensures { ReadsAfterHead S.step head.now len stored result (S.held journal.old) (S.held journal.new) }
{
    let shape = Shape::of(head, len, stored);
    if !is_journal(head, shape) {
        return Ok(Err(Cold::by_head(head)));
    }
    let entries = read_records(alloc, journal, shape, head)?;
    Ok(Ok(Journal { shape, entries }))
}

impl<A: Allocator + Copy> Journal<A> {
    /// Reads a rollback journal beside a database whose header states pages of `stored` bytes: its length, and then its bytes once, in
    /// order, in pieces of at most 64 KiB or a record. Where nothing of it is used, the answer says why.
    ///
    /// # Errors
    ///
    /// [`JournalError::ReadFailed`] exactly where the source failed, [`JournalError::OutOfMemory`] where memory was refused, and
    /// [`JournalError::TooLong`] where the journal has 32 GiB or more.
    pub fn read<S: Source>(
        alloc: A,
        journal: &mut S,
        stored: u32,
    ) -> Result<Result<Journal<A>, Cold>, JournalError>
        ensures reads { ReadsJournal S.step S.lengths stored result (S.held journal.old) (S.held journal.new) }
        ensures bytes { IfSome (S.held journal.old).bytes AreBytes }
    {
        let len = journal.len()?;
        if len < LEAST_LEN {
            return Ok(Err(Cold::Short));
        }
        if len >= MOST_LEN {
            return Err(JournalError::TooLong);
        }
        let mut head = [0u8; HEAD_LEN];
        journal.read_at(0, &mut head)?;
        read_after_head(alloc, journal, &head, len, stored)
    }
}

impl<A: Allocator> Journal<A> {
    /// Its length in bytes.
    pub fn len(&self) -> u64
        ensures { result ≡ self.now.shape.len }
    {
        self.shape.len()
    }

    /// The pages that the database had.
    pub fn pages(&self) -> u32
        ensures { result ≡ self.now.shape.pages }
    {
        self.shape.pages()
    }

    /// The entries, by their pages, which rise.
    pub fn entries(&self) -> &[Entry]
        ensures { result.now ≡ self.now.entries }
    {
        self.entries.as_slice()
    }

    /// Where the journal has its pages.
    pub fn into_pages(self) -> LogPages<A>
        ensures { result ≡ journal_pages self }
    {
        let Journal { shape, entries } = self;
        LogPages::new(
            shape.page_size(),
            shape.pages(),
            NUMBER_LEN,
            UNIT_LEN,
            entries,
        )
    }
}

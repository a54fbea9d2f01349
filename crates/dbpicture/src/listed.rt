// The pages of the injuries that are listed, and of their causes, and the pages that are zeros, or one byte throughout.
ghost use Rattle.std.specs.Prelude.{◌≡◌, ℕ, ◌++◌, List, filter, flat_map, length};
ghost use Rattle.std.specs.List.{range_with_len};
ghost use Rattle.dbinjuries.specs.Bits.{has_bit};
ghost use Rattle.dbpicture.specs.declared.faults.Sign.{Sign};
ghost use Rattle.dbpicture.specs.declared.faults.Sign.TheVariants.{Blank, Zeros};
ghost use Rattle.dbpicture.specs.Faults.{cause_page, injury_signs, frame_signs, framed, page_of_value, run_pages, value_page, with_sign};
ghost use Rattle.dbpicture.specs.Keeping.{AreNoted};

use crate::fault_notes::FaultNotes;
use crate::faults::Sign;
use dbformat::{Fault, FaultCode};
use dbinjuries::{Cause, Injury, Listing, PageBits, PageRun, TracedFault};
use std::alloc::Allocator;

// The page that a value is the number of, or 0.
fn page_of_value(value: i64) -> u32
    ensures { result ≡ page_of_value value }
{
    if value >= 0 && value <= i64::from(u32::MAX) {
        value as u32
    } else {
        0
    }
}

// The page that the value of a fault names, or 0.
fn value_page(fault: &Fault) -> u32
    ensures { result ≡ value_page fault.now.code fault.now.value }
{
    match fault.code {
        FaultCode::R02 | FaultCode::R03 | FaultCode::T04 | FaultCode::O01 | FaultCode::M02 => {
            page_of_value(fault.value)
        }
        _ => 0,
    }
}

// The page of a cause, or 0 where it is that of the fault.
fn cause_page(cause: Cause) -> u32
    ensures { result ≡ cause_page cause }
{
    match cause {
        Cause::Key(key, _) => key.page,
        Cause::Leaf(page, _) => page,
        Cause::Chain(chain) => chain.page,
        Cause::Itself | Cause::Rows(_) | Cause::Page(_, _) | Cause::Look(_, _) => 0,
    }
}

// Notes the strong frame of the pages of a fault that leads: its own, the one that its value names, and that of its cause.
fn note_pages<A: Allocator>(notes: &mut FaultNotes<A>, first: &TracedFault)
    ensures { (count : ℕ) (signs : List (ℕ × Sign)) → AreNoted count signs notes.old → AreNoted count (signs ++ frame_signs first.now) notes.new }
{
    let fault = &first.fault;
    notes.note(fault.page, Sign::Framed);
    notes.note(value_page(fault), Sign::Framed);
    notes.note(cause_page(first.cause), Sign::Framed);
}

// Notes the strong frame of the pages of a run.
fn note_run<A: Allocator>(notes: &mut FaultNotes<A>, run: PageRun)
    ensures { (count : ℕ) (signs : List (ℕ × Sign)) → AreNoted count signs notes.old → AreNoted count (signs ++ framed (run_pages run)) notes.new }
{
    for page in run.first..run.last.saturating_add(1) {
        notes.note(page, Sign::Framed);
    }
}

// Notes the strong frame of the pages of some runs.
fn note_runs<A: Allocator>(notes: &mut FaultNotes<A>, runs: &[PageRun])
    ensures { (count : ℕ) (signs : List (ℕ × Sign)) → AreNoted count signs notes.old
        → AreNoted count (signs ++ framed (flat_map run_pages runs.now)) notes.new }
{
    for run in runs {
        note_run(notes, *run);
    }
}

// Notes the strong frame of the pages of an injury.
fn note_injury<A: Allocator>(notes: &mut FaultNotes<A>, injury: &Injury)
    ensures { (count : ℕ) (signs : List (ℕ × Sign)) → AreNoted count signs notes.old → AreNoted count (signs ++ injury_signs injury.now) notes.new }
{
    note_pages(notes, &injury.first);
    let runs = &injury.others.runs;
    note_runs(notes, &runs.kept[..runs.count.min(10) as usize]);
}

// Notes a sign of those of the first `pages` that have a bit, and counts them.
fn note_bits<A: Allocator>(
    notes: &mut FaultNotes<A>,
    bits: &PageBits<A>,
    pages: u32,
    sign: Sign,
) -> u32
    ensures count { result ≡ length (filter (has_bit bits.now) (range_with_len 1 pages)) }
    ensures noted { (count : ℕ) (signs : List (ℕ × Sign)) → AreNoted count signs notes.old
        → AreNoted count (signs ++ with_sign sign (filter (has_bit bits.now) (range_with_len 1 pages))) notes.new }
{
    let mut count = 0u32;
    for index in 0..pages {
        if bits.has(index + 1) {
            notes.note(index + 1, sign);
            count += 1;
        }
    }
    count
}

// Notes the pages of some injuries.
fn note_listed<A: Allocator>(notes: &mut FaultNotes<A>, listed: &[Injury])
    ensures { (count : ℕ) (signs : List (ℕ × Sign)) → AreNoted count signs notes.old
        → AreNoted count (signs ++ flat_map injury_signs listed.now) notes.new }
{
    for injury in listed {
        note_injury(notes, injury);
    }
}

/// Notes the pages of the injuries that are listed, and those of the first `pages` that are zeros, or one byte throughout; and counts the last.
pub(crate) fn note_listing<A: Allocator>(
    notes: &mut FaultNotes<A>,
    listing: &Listing<A>,
    pages: u32,
) -> u32
    ensures count { result ≡ length (filter (has_bit listing.now.blank) (range_with_len 1 pages)) }
    ensures noted { (count : ℕ) (signs : List (ℕ × Sign)) → AreNoted count signs notes.old
        → AreNoted count (signs ++ flat_map injury_signs listing.now.injuries.listed
        ++ with_sign Zeros (filter (has_bit listing.now.zeros) (range_with_len 1 pages))
        ++ with_sign Blank (filter (has_bit listing.now.blank) (range_with_len 1 pages))) notes.new }
{
    note_listed(notes, listing.listed());
    note_bits(notes, listing.zeros(), pages, Sign::Zeros);
    note_bits(notes, listing.blank(), pages, Sign::Blank)
}

// An overflow page: what it holds, and what is reported of it (Database File Format, 1.7).
ghost use Rattle.std.specs.Prelude.{◌≡◌, ◌+◌, ◌-◌, ◌≤◌, ◌<◌, ◌&&◌, ◌==◌, ◌∷◌, length, map, not, nat_le, option_to_list, pos, Some, is_some};
ghost use Rattle.dbformat.specs.Counts.{overflow_counts};
ghost use Rattle.dbformat.specs.Faults.{fault};
ghost use Rattle.dbtrace.specs.Causes.{seen_bytes};
ghost use Rattle.dbtrace.specs.declared.Cause.TheVariants as cause;
ghost use Rattle.dbformat.specs.Payload.{most_payload, overflow_bytes, overflow_next};
ghost use Rattle.dbformat.specs.Tests.{reported_if};
ghost use Rattle.dbformat.specs.declared.FaultCode.TheVariants as fault_code;
ghost use Rattle.dbformat.specs.declared.PageType.TheVariants as page_type;
ghost use Rattle.dbwalk.specs.Chains.{Feeds, seen_before, walked_chain};
ghost use Rattle.dbtrace.specs.Finding.{reported_row, reported_fault};
ghost use Rattle.dbwalk.specs.Reporting.{IsReportedTo};
ghost use Rattle.dbwalk.specs.Rows.{row_of};

use crate::chain::{Chain, ChainPage, ChainPlace};
use crate::{Cause, CellChain, Fault, PageType, Row, Sink};
use dbbytes::RowSieve;
use dbformat::{Counts, FaultCode, u32_at};
use dbpage::{is_zeros, usable_run};
use dbtrace::SeenBytes;

/// The next page that an overflow page names.
pub(crate) fn next_page(bytes: &[u8]) -> u32
    requires { 4 ≤ length bytes.now }
    ensures { result ≡ overflow_next bytes.now }
{
    u32_at(bytes, 0)
}

// What is seen in the bytes of an overflow page.
#[inline(never)]
fn seen_bytes(bytes: &[u8], usable: u32) -> SeenBytes
    requires whole { usable ≤ length bytes.now }
    requires most { usable ≤ 65536 }
    ensures { result ≡ seen_bytes usable bytes.now }
{
    let are_zeros = is_zeros(bytes, usable);
    SeenBytes {
        are_zeros,
        run: if are_zeros {
            None
        } else {
            usable_run(bytes, usable)
        },
    }
}

/// What is seen in the page that was read last before page `number` of a chain, if it is one of the chain.
pub(crate) fn seen_before(bytes: &[u8], usable: u32, number: u32) -> SeenBytes
    requires whole { usable ≤ length bytes.now }
    requires most { usable ≤ 65536 }
    ensures { result ≡ seen_before usable number bytes.now }
{
    if number == 0 {
        SeenBytes::NONE
    } else {
        seen_bytes(bytes, usable)
    }
}

// The row of an overflow page in the statistics.
pub(crate) fn overflow_row<'a>(chain: &Chain<'a>, place: ChainPlace, usable: u32) -> Row<'a>
    requires { 4 ≤ usable }
    ensures start { result.start ≡ chain.now.start }
    ensures path { result.path.now ≡ chain.now.path.now }
    ensures chain { result.chain ≡ Some (chain.now.cell, place.number) }
    ensures page { (result.page ≡ place.step.page) × (result.pagetype ≡ page_type.Overflow) }
    ensures counts { result.counts ≡ overflow_counts usable place.left }
{
    let room = usable - 4;
    let payload = place.left.min(room);
    Row {
        start: chain.start,
        path: chain.path,
        chain: Some((chain.cell, place.number)),
        page: place.step.page,
        pagetype: PageType::Overflow,
        counts: Counts {
            payload: u64::from(payload),
            unused: u64::from(room - payload),
            ..Counts::NONE
        },
    }
}

// The fault of the last page of a chain that names a next one.
pub(crate) fn last_fault(usable: u32, left: u32, page: u32, next: u32) -> Option<Fault>
    requires { 4 ≤ usable }
    ensures { option_to_list result ≡ reported_if (nat_le left (usable - 4) && not (next == 0)) (fault fault_code.O01 page 0 (pos next)) }
{
    if left <= usable - 4 && next != 0 {
        Some(Fault::new(FaultCode::O01, page, 0, next))
    } else {
        None
    }
}

// What a fault at a place of a chain goes back to, where `found` pages were found.
#[inline(always)]
pub(crate) fn chain_cause(at: ChainPage<'_>, usable: u32, found: u32, seen: SeenBytes) -> Cause
    requires usable { (480 ≤ usable) × (usable ≤ 65536) }
    requires counted { at.place.number + at.place.left ≤ most_payload }
    ensures { result ≡ cause.Chain (walked_chain at.entry.chain.now at.entry.place.number usable at.entry.place.left found seen) }
{
    let room = usable - 4;
    Cause::Chain(CellChain {
        page: at.chain.page,
        item: at.chain.cell,
        rowid: at.chain.rowid,
        pages: at.place.number + (at.place.left + (room - 1)) / room,
        found,
        seen,
    })
}

// Reports the row of the page at a place of a chain, which has these bytes, and then its fault with the cause, if there is one.
pub(crate) fn report<K: Sink>(
    row: &Row<'_>,
    fault: Option<Fault>,
    at: ChainPage<'_>,
    usable: u32,
    bytes: &[u8],
    sink: &mut K,
)
    requires usable { (480 ≤ usable) × (usable ≤ 65536) }
    requires whole { usable ≤ length bytes.now }
    requires counted { at.place.number + at.place.left ≤ most_payload }
    ensures { IsReportedTo K.takes K.held sink.old (reported_row (row_of row.now)
        ∷ map (λ f. reported_fault f (cause.Chain (walked_chain at.entry.chain.now at.entry.place.number usable at.entry.place.left (at.entry.place.number + 1)
        (seen_bytes usable bytes.now)))) (option_to_list fault)) sink.new }
{
    sink.row(row);
    if let Some(fault) = fault {
        let seen = seen_bytes(bytes, usable);
        let cause = chain_cause(at, usable, at.place.number + 1, seen);
        sink.fault(&fault, &cause);
    }
}

// Hands the payload bytes on an overflow page to a sieve, if there is one.
pub(crate) fn feed_page(bytes: &[u8], usable: u32, left: u32, sieve: &mut Option<RowSieve>)
    requires { (4 ≤ usable) × (usable ≤ length bytes.now) }
    ensures fed { Feeds sieve.old (overflow_bytes usable left bytes.now) sieve.new }
    ensures kept { is_some sieve.new ≡ is_some sieve.old }
{
    if let Some(sieve) = sieve {
        let len = left.min(usable - 4) as usize;
        sieve.feed(&bytes[4..4 + len]);
    }
}

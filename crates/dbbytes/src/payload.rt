// How a payload is divided between its cell and overflow pages (Database File Format, 1.6).
ghost use Rattle.std.specs.Prelude.{◌≡◌, ◌+◌, ◌≤◌};
ghost use Rattle.dbformat.specs.Payload.{most_payload, most_local, local_len};

use dbformat::PayloadKind;

/// The most bytes of a payload that a cell can have without overflow: a payload of this size or less is wholly in its cell.
#[inline(always)]
pub fn most_local(kind: PayloadKind, usable: u32) -> u32
    requires low { 480 ≤ usable }
    requires high { usable ≤ 65536 }
    ensures value { result ≡ most_local kind usable }
    ensures room { result + 35 ≤ usable }
{
    match kind {
        PayloadKind::TableLeaf => usable - 35,
        PayloadKind::Index => (usable - 12) * 64 / 255 - 23,
    }
}

/// How many bytes of a payload of `p` bytes are in its cell, on pages of `usable` usable bytes. The others are on
/// overflow pages.
#[inline(never)]
#[tactic(auto, unfolding(dbformat::specs::Payload::local_len))]
pub fn local_len(kind: PayloadKind, usable: u32, p: u32) -> u32
    requires usable_low { 480 ≤ usable }
    requires usable_high { usable ≤ 65536 }
    requires p { p ≤ most_payload }
    ensures value { result ≡ local_len kind usable p }
    // At most the whole payload, and a page has room for it beside a cell's other parts.
    ensures within { result ≤ p }
    ensures room { result + 35 ≤ usable }
{
    let most = most_local(kind, usable);
    if p <= most {
        return p;
    }
    let least = (usable - 12) * 32 / 255 - 23;
    let even = least + (p - least) % (usable - 4);
    if even <= most { even } else { least }
}

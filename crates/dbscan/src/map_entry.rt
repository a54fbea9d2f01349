// Entries of the pointer map (Database File Format, 1.8).
ghost use Rattle.std.specs.Prelude.{◌≡◌, ◌+◌, ◌-◌, ◌*◌, ◌≤◌, length, slice_index};
ghost use Rattle.dbformat.specs.Numbers.{u32_at};

use dbformat::u32_at;
use dbmarks::MapEntry;

// The entry in a map page of the page that is `distance` pages after it.
pub(crate) fn stored_entry(map_page: &[u8], distance: u32) -> MapEntry
    requires first { 1 ≤ distance }
    requires room { (5 * distance ≤ length map_page.now) × (length map_page.now ≤ 65536) }
    ensures kind { result.kind ≡ slice_index map_page.now (5 * (distance - 1)) }
    ensures number { result.number ≡ u32_at (5 * (distance - 1) + 1) map_page.now }
{
    let at = 5 * (distance - 1);
    MapEntry {
        kind: map_page[at as usize],
        number: u32_at(map_page, at + 1),
    }
}

// How many roots the list of roots takes where it finds memory. By its clauses it might find none.
use crate::support::stops::holds;
use dbscan::{RootList, RowKind, SchemaRow, Taken, Taker};

const LONGEST: [u8; 64] = [b'n'; 64];

// The row of a table with this root, and a name of 1 to 64 bytes.
fn row_of(root: u32) -> SchemaRow<'static> {
    SchemaRow {
        kind: RowKind::Table,
        root,
        name: LONGEST.get(..(root as usize % 64).wrapping_add(1)),
    }
}

// The first root that a list has no room for. None where there is none up to 70000, or where memory is refused before.
fn full_at(list: &mut RootList) -> Option<u32> {
    for root in 1..70000u32 {
        match list.take(&row_of(root)) {
            Ok(Taken::Taken) => {}
            Ok(Taken::Full) => return Some(root),
            _ => return None,
        }
    }
    None
}

#[test]
fn takes_65536_roots_with_names(rt: HostRuntime) {
    let mut list = RootList::new(rt.alloc());
    holds!(rt; full_at(&mut list) == Some(65537));
}

// A level of a bench stays borrowed while the page of a chain is written.
use crate::support::bytes::patch;
use crate::support::stops::holds;
use dbsource::{Bench, Geometry, MemSource};
use std::test::Fail;

const GEOMETRY: Geometry = Geometry {
    page_size: 512,
    usable: 512,
    pages: 2,
    has_map: false,
};

// Writes the page of a chain, its last byte by a borrowed level. Whether the level is as it was then, and the chain has what was written to
// it, and else what was read to it.
fn is_lent(bench: &mut Bench, bytes: &[u8]) -> bool {
    let (level, chain) = bench.chain(3);
    patch(chain, 0, &[1]);
    patch(chain, 511, &[level.last().copied().unwrap_or(0)]);
    let is_kept = level == bytes && bench.page(3) == bytes;
    let chain = bench.page(20);
    is_kept && chain.first_chunk() == Some(&[1, 8]) && chain.last() == Some(&7)
}

#[test]
fn a_level_stays_lent_beside_the_chain(rt: HostRuntime) -> Result<(), Fail> {
    let mut file = [7u8; 1024];
    file[512..].fill(8);
    let mut bench = Bench::new(rt.alloc(), GEOMETRY)?;
    bench.load(3, &mut MemSource::new(&file), 1)?;
    bench.load(20, &mut MemSource::new(&file), 2)?;
    holds!(rt; is_lent(&mut bench, &file[..512]));
    Ok(())
}

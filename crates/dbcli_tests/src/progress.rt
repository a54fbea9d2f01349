// How the longest texts of the progress are wiped, which no run of a test comes to.
use crate::fake_system::FakeSystem;
use crate::stops::holds;
use dbcli::Progress;
use std::test::Fail;

// A run, how many pages it has read, how many there are, and the text.
const TEXTS: [(u64, u64, u64, &str); 4] = [
    (1, 65_536, 131_072, "dbck: 65536 of 131072 pages, 50%\r"),
    (
        1,
        67_108_864,
        67_108_864,
        "dbck: 67108864 of 67108864 pages, 100%\r",
    ),
    (
        256,
        67_108_864,
        67_108_864,
        "dbck: run 256, 67108864 of 67108864 pages, 100%\r",
    ),
    (
        256,
        67_108_864,
        9_223_372_036_854_775_807,
        "dbck: run 256, 67108864 of 9223372036854775807 pages, 0%\r",
    ),
];

#[test]
fn wipes_the_longest_texts(rt: HostRuntime) -> Result<(), Fail> {
    for (run, count, pages, text) in TEXTS {
        let system = FakeSystem::new(&rt);
        let progress = Progress::new(&system, true);
        progress.show(run, count, pages);
        progress.wipe();
        let is_wiped = system.has_wiped(text);
        holds!(rt; is_wiped, text);
    }
    Ok(())
}

// A log that SQLite made of two transactions: a table in pages 1 and 2, of 512 bytes, and then a row.
use crate::{Counts, Index, LogError};
use dbsource::{LogSource, MemSource};
use std::test::Fail;

// Its bytes that are not 0, by their places.
const BYTES: [(usize, u8); 157] = [
    (0, 55),
    (1, 127),
    (2, 6),
    (3, 130),
    (5, 45),
    (6, 226),
    (7, 24),
    (10, 2),
    (16, 96),
    (17, 31),
    (18, 245),
    (19, 15),
    (20, 181),
    (21, 218),
    (22, 117),
    (23, 117),
    (24, 228),
    (25, 192),
    (26, 34),
    (27, 115),
    (28, 18),
    (29, 15),
    (30, 212),
    (31, 205),
    (35, 1),
    (40, 96),
    (41, 31),
    (42, 245),
    (43, 15),
    (44, 181),
    (45, 218),
    (46, 117),
    (47, 117),
    (48, 133),
    (49, 214),
    (50, 102),
    (51, 132),
    (52, 131),
    (54, 146),
    (55, 143),
    (56, 83),
    (57, 81),
    (58, 76),
    (59, 105),
    (60, 116),
    (61, 101),
    (62, 32),
    (63, 102),
    (64, 111),
    (65, 114),
    (66, 109),
    (67, 97),
    (68, 116),
    (69, 32),
    (70, 51),
    (72, 2),
    (74, 2),
    (75, 2),
    (77, 64),
    (78, 32),
    (79, 32),
    (83, 2),
    (87, 2),
    (99, 1),
    (103, 4),
    (115, 1),
    (151, 2),
    (153, 46),
    (154, 99),
    (155, 1),
    (156, 13),
    (160, 1),
    (161, 1),
    (162, 223),
    (164, 1),
    (165, 223),
    (535, 31),
    (536, 1),
    (537, 6),
    (538, 23),
    (539, 15),
    (540, 15),
    (541, 1),
    (542, 47),
    (543, 116),
    (544, 97),
    (545, 98),
    (546, 108),
    (547, 101),
    (548, 116),
    (549, 116),
    (550, 2),
    (551, 67),
    (552, 82),
    (553, 69),
    (554, 65),
    (555, 84),
    (556, 69),
    (557, 32),
    (558, 84),
    (559, 65),
    (560, 66),
    (561, 76),
    (562, 69),
    (563, 32),
    (564, 116),
    (565, 40),
    (566, 97),
    (567, 41),
    (571, 2),
    (575, 2),
    (576, 96),
    (577, 31),
    (578, 245),
    (579, 15),
    (580, 181),
    (581, 218),
    (582, 117),
    (583, 117),
    (584, 108),
    (585, 136),
    (586, 144),
    (587, 74),
    (588, 34),
    (589, 26),
    (590, 72),
    (591, 164),
    (592, 13),
    (597, 2),
    (1107, 2),
    (1111, 2),
    (1112, 96),
    (1113, 31),
    (1114, 245),
    (1115, 15),
    (1116, 181),
    (1117, 218),
    (1118, 117),
    (1119, 117),
    (1120, 251),
    (1121, 36),
    (1122, 177),
    (1123, 230),
    (1124, 111),
    (1125, 20),
    (1126, 166),
    (1127, 210),
    (1128, 13),
    (1132, 1),
    (1133, 1),
    (1134, 252),
    (1136, 1),
    (1137, 252),
    (1636, 2),
    (1637, 1),
    (1638, 2),
    (1639, 9),
];

// Its length.
const LEN: usize = 1640;

// What another version makes of the header: the version, and the sums.
const OTHER_VERSION: [(usize, u8); 3] = [(7, 25), (24, 231), (28, 23)];

// The log with these bytes.
fn log(changes: &[(usize, u8)]) -> [u8; LEN] {
    let mut log = [0u8; LEN];
    for (at, byte) in BYTES.iter().chain(changes) {
        if let Some(place) = log.get_mut(*at) {
            *place = *byte;
        }
    }
    log
}

#[test]
fn two_transactions(rt: HostRuntime) -> Result<(), Fail> {
    let log = log(&[]);
    let mut source = LogSource::new(&log);
    let index = Index::read(rt.alloc(), &mut source)?;
    assert_eq!(rt; index.page_size(), 512);
    assert_eq!(rt; index.pages(), 2);
    let counts = Counts {
        frames: 3,
        committed: 3,
        transactions: 2,
        later: 0,
        broken: None,
    };
    assert_eq!(rt; index.counts(), counts);
    let mut found = [(0u32, 0u32); 3];
    for (entry, place) in index.entries().iter().zip(found.iter_mut()) {
        *place = (entry.page(), entry.frame());
    }
    assert_eq!(rt; found, [(1, 0), (2, 2), (0, 0)]);
    let mut asked = [(0u64, 0u64); 3];
    for (range, place) in source.ranges().iter().zip(asked.iter_mut()) {
        *place = (range.offset, range.len);
    }
    assert_eq!(rt; asked, [(0, 32), (32, 1608), (0, 0)]);
    Ok(())
}

#[test]
fn last_frame_cut(rt: HostRuntime) -> Result<(), Fail> {
    let log = log(&[]);
    let mut source = MemSource::new(log.get(..LEN - 1).ok_or("too short")?);
    let index = Index::read(rt.alloc(), &mut source)?;
    assert_eq!(rt; index.pages(), 2);
    let counts = Counts {
        frames: 2,
        committed: 2,
        transactions: 1,
        later: 0,
        broken: Some(1104),
    };
    assert_eq!(rt; index.counts(), counts);
    Ok(())
}

#[test]
fn second_frame_broken(rt: HostRuntime) -> Result<(), Fail> {
    let log = log(&[(1000, 1)]);
    let mut source = MemSource::new(&log);
    let index = Index::read(rt.alloc(), &mut source)?;
    assert_eq!(rt; index.pages(), 0);
    let counts = Counts {
        frames: 1,
        committed: 0,
        transactions: 0,
        later: 1,
        broken: Some(568),
    };
    assert_eq!(rt; index.counts(), counts);
    assert_eq!(rt; index.entries().len(), 0);
    Ok(())
}

#[test]
fn other_version(rt: HostRuntime) -> Result<(), Fail> {
    let log = log(&OTHER_VERSION);
    let mut source = MemSource::new(&log);
    assert_eq!(rt;
        Index::read(rt.alloc(), &mut source).err(),
        Some(LogError::Version)
    );
    Ok(())
}

// The first bytes of one column of a record, kept as the record's bytes pass.
ghost use Rattle.std.specs.Prelude.{◌≡◌, ℕ, ◌+◌, ◌≤◌, List, [], ◌++◌, min};
ghost use Rattle.arrayvec.specs.ArrayVec.{array_vec_len};
ghost use Rattle.dbbytes.specs.Window.{kept};

use arrayvec::ArrayVec;

#[derive(Drop)]
pub(crate) struct Window<const N: usize> {
    // How many bytes pass before the first that is kept, and then how many are kept.
    gap: usize,
    want: usize,
    bytes: ArrayVec<u8, N>,
    ghost room: { array_vec_len bytes + want ≤ N },
}

impl<const N: usize> Window<N> {
    // A window that keeps nothing.
    pub(crate) fn new() -> Window<N>
        ensures want { result.want ≡ 0 }
        ensures bytes { result.bytes.items ≡ [] }
    {
        Window {
            gap: 0,
            want: 0,
            bytes: ArrayVec::new(),
        }
    }

    // Keeps, of a column of `len` bytes that begins after `gap` more, the first N.
    pub(crate) fn aim(&mut self, gap: u32, len: u32)
        ensures gap { self.new.gap ≡ gap }
        ensures want { self.new.want ≡ min len N }
        ensures bytes { self.new.bytes.items ≡ [] }
    {
        self.bytes.clear();
        self.gap = gap as usize;
        self.want = (len as usize).min(N);
    }

    // Takes the next bytes of the record.
    pub(crate) fn take(&mut self, piece: &[u8])
        ensures { (more : List ℕ) → kept self.new.gap self.new.want self.new.bytes.items more
            ≡ kept self.old.gap self.old.want self.old.bytes.items (piece.now ++ more) }
    {
        let skip = self.gap.min(piece.len());
        let count = self.want.min(piece.len() - skip);
        self.bytes
            .try_extend_from_slice(&piece[skip..skip + count])
            .unwrap();
        self.gap -= skip;
        self.want -= count;
    }

    pub(crate) fn bytes(&self) -> &[u8]
        ensures value { result.now ≡ self.now.bytes.items }
        ensures fits { array_vec_len self.now.bytes ≤ N }
    {
        self.bytes.as_slice()
    }
}

// A variable-length integer whose bytes come one by one.
ghost use Rattle.std.specs.Prelude.{◌<◌, ◌≤◌, ◌*◌, ◌^◌};

// What the first bytes give: seven bits each, of at most eight bytes that all say that more follow.
#[derive(Clone, Copy)]
pub(crate) struct PartialVarint {
    value: u64,
    length: u8,
    ghost few: { length ≤ 8 },
    ghost small: { value < 2 ^ (7 * length) },
}

// What one more byte makes of it.
#[derive(Clone, Copy)]
pub(crate) enum VarintProgress {
    More(PartialVarint),
    Whole { value: u64, length: u8 },
}

impl PartialVarint {
    ghost use Rattle.std.specs.Prelude.{◌≡◌, ℕ, ◌+◌, List, ◌∷◌};
    ghost use Rattle.dbbytes.specs.Varint.{length_after, varint_from, varint_after};

    pub(crate) fn new() -> PartialVarint
        ensures value { result.value ≡ 0 }
        ensures length { result.length ≡ 0 }
    {
        PartialVarint {
            value: 0,
            length: 0,
        }
    }

    // The ninth byte gives all its eight bits (Database File Format, 1.6).
    pub(crate) fn push(self, byte: u8) -> VarintProgress
        ensures length { length_after result ≡ self.length + 1 }
        ensures number { (bytes : List ℕ) → varint_after result bytes
            ≡ varint_from self.length self.value (byte ∷ bytes) }
    {
        if self.length == 8 {
            return VarintProgress::Whole {
                value: self.value * 256 + u64::from(byte),
                length: 9,
            };
        }
        let value = self.value * 128 + u64::from(byte % 128);
        let length = self.length + 1;
        if byte < 128 {
            VarintProgress::Whole { value, length }
        } else {
            VarintProgress::More(PartialVarint { value, length })
        }
    }
}

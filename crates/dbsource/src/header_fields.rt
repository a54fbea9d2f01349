// The fields of a header that may have faults (Database File Format, 1.3).
ghost use Rattle.std.specs.Prelude.{◌≡◌};
ghost use Rattle.dbformat.specs.Header.{stated_pages, first_trunk, freelist_count, schema_format};
ghost use Rattle.dbformat.specs.Header.{greatest_root, encoding, encoding_number, incremental_vacuum};
ghost use Rattle.dbformat.specs.Header.{is_size_valid};

use crate::Header;
use crate::header_words::is_size_valid;
use dbformat::{Encoding, u32_at};

impl Header {
    /// The size in pages that the header states, which counts where [`Header::is_size_valid`] says so (1.3.7).
    #[tactic(auto, unfolding(dbformat::specs::Header::stated_pages))]
    pub fn stated_pages(&self) -> u32
        ensures { result ≡ stated_pages self.now.bytes }
    {
        u32_at(self.bytes(), 28)
    }

    /// Whether the stated size is not 0 and was written by the last change (1.3.7).
    pub fn is_size_valid(&self) -> bool
        ensures { result ≡ is_size_valid self.now.bytes }
    {
        is_size_valid(self.bytes())
    }

    /// The first trunk of the freelist, or 0 (1.3.8).
    #[tactic(auto, unfolding(dbformat::specs::Header::first_trunk))]
    pub fn first_trunk(&self) -> u32
        ensures { result ≡ first_trunk self.now.bytes }
    {
        u32_at(self.bytes(), 32)
    }

    /// How many pages the freelist is said to have, trunks and leaves (1.3.8).
    #[tactic(auto, unfolding(dbformat::specs::Header::freelist_count))]
    pub fn freelist_count(&self) -> u32
        ensures { result ≡ freelist_count self.now.bytes }
    {
        u32_at(self.bytes(), 36)
    }

    /// The schema format number (1.3.10).
    #[tactic(auto, unfolding(dbformat::specs::Header::schema_format))]
    pub fn schema_format(&self) -> u32
        ensures { result ≡ schema_format self.now.bytes }
    {
        u32_at(self.bytes(), 44)
    }

    /// The greatest root page of a file with a pointer map, else 0 (1.3.12).
    #[tactic(auto, unfolding(dbformat::specs::Header::greatest_root))]
    pub fn greatest_root(&self) -> u32
        ensures { result ≡ greatest_root self.now.bytes }
    {
        u32_at(self.bytes(), 52)
    }

    /// The number of the text encoding (1.3.13).
    #[tactic(auto, unfolding(dbformat::specs::Header::encoding_number))]
    pub fn encoding_number(&self) -> u32
        ensures { result ≡ encoding_number self.now.bytes }
    {
        u32_at(self.bytes(), 56)
    }

    /// How the texts of the schema are stored. A number that is no encoding is read as UTF-8 (1.3.13).
    #[tactic(auto, unfolding(dbformat::specs::Header::encoding))]
    pub fn encoding(&self) -> Encoding
        ensures { result ≡ encoding self.now.bytes }
    {
        match self.encoding_number() {
            2 => Encoding::Utf16le,
            3 => Encoding::Utf16be,
            _ => Encoding::Utf8,
        }
    }

    /// Not 0 for incremental vacuum (1.3.12).
    #[tactic(auto, unfolding(dbformat::specs::Header::incremental_vacuum))]
    pub fn incremental_vacuum(&self) -> u32
        ensures { result ≡ incremental_vacuum self.now.bytes }
    {
        u32_at(self.bytes(), 64)
    }
}

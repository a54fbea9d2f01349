// Formats of other files, by what these begin with.
ghost use Rattle.std.specs.Prelude.{◌≡◌};
ghost use Rattle.dbcli.specs.Formats.{format_of, format_text, is_of, signature};

/// A format in which a database may be packed, or that is often taken for one.
#[derive(Clone, Copy)]
pub(crate) enum Format {
    Gzip,
    Zip,
    Xz,
    Zstd,
    Pdf,
}

impl Format {
    // The bytes that a file of this format begins with.
    fn signature(self) -> &'static [u8]
        ensures { result.now ≡ signature self }
    {
        match self {
            Format::Gzip => b"\x1f\x8b",
            Format::Zip => b"PK\x03\x04",
            Format::Xz => b"\xfd7zXZ\0",
            Format::Zstd => b"\x28\xb5\x2f\xfd",
            Format::Pdf => b"%PDF-",
        }
    }

    // Whether a file with these first bytes has this format.
    fn is_of(self, first: &[u8; 16]) -> bool
        ensures { result ≡ is_of first.now self }
    {
        first.starts_with(self.signature())
    }

    /// The format of a file with these first bytes, if it is one of these.
    pub(crate) fn of(first: &[u8; 16]) -> Option<Format>
        ensures { result ≡ format_of first.now }
    {
        if Format::Gzip.is_of(first) {
            Some(Format::Gzip)
        } else if Format::Zip.is_of(first) {
            Some(Format::Zip)
        } else if Format::Xz.is_of(first) {
            Some(Format::Xz)
        } else if Format::Zstd.is_of(first) {
            Some(Format::Zstd)
        } else if Format::Pdf.is_of(first) {
            Some(Format::Pdf)
        } else {
            None
        }
    }

    /// What is said of it.
    #[tactic(auto, unfolding(crate::specs::Formats::format_text))]
    pub(crate) fn text(self) -> &'static str
        ensures { result.now ≡ format_text self }
    {
        match self {
            Format::Gzip => " begins as a gzip file does; unpack it first",
            Format::Zip => " begins as a ZIP archive does; unpack it first",
            Format::Xz => " begins as an xz file does; unpack it first",
            Format::Zstd => " begins as a zstd file does; unpack it first",
            Format::Pdf => " begins as a PDF document does",
        }
    }
}

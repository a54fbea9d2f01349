// Bytes as ASCII.
ghost use Rattle.std.specs.Prelude.{◌≡◌};
ghost use Rattle.dbformat.specs.FirstBytes.{shown_byte};

/// A byte as ASCII: a full stop where it is not printable.
pub fn shown_byte(byte: u8) -> u8
    ensures { result ≡ shown_byte byte }
{
    if byte < 32 || byte > 126 { b'.' } else { byte }
}

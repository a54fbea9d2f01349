// Bytes in hexadecimal.
ghost use Rattle.std.specs.Prelude.{◌≡◌, ◌<◌, false};
ghost use Rattle.std.specs.Fmt.{digit_glyph};
ghost use Rattle.dbformat.specs.Text.{hex_text};

/// The lower-case hexadecimal digit of a number below 16.
pub fn hex_digit(digit: u8) -> u8
    requires { digit < 16 }
    ensures { result ≡ digit_glyph false digit }
{
    if digit < 10 {
        b'0' + digit
    } else {
        b'a' + (digit - 10)
    }
}

/// The two lower-case hexadecimal digits of a byte.
pub fn hex_byte(byte: u8) -> [u8; 2]
    ensures { result ≡ hex_text 2 byte }
{
    [hex_digit(byte / 16), hex_digit(byte % 16)]
}

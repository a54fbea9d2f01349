// A text in XML, with what would be markup escaped.
ghost use Rattle.std.specs.Prelude.{◌≡◌, true, false, [], ◌∷◌};
ghost use Rattle.dbsource.specs.Outs.{Puts};
ghost use Rattle.dbpicture.specs.Xml.{byte_text, escaped};

use dbsource::{Out, WriteFailed};

// Puts a byte of a text.
fn put_byte<O: Out>(out: &mut O, byte: u8) -> Result<(), WriteFailed>
    ensures { Puts result (O.held out.old) (O.held out.new) (byte_text byte) }
{
    match byte {
        b'&' => out.put(b"&amp;"),
        b'<' => out.put(b"&lt;"),
        b'>' => out.put(b"&gt;"),
        b'"' => out.put(b"&quot;"),
        b'\'' => out.put(b"&#39;"),
        _ => out.put(&[byte]),
    }
}

// Whether a byte would be markup.
fn is_markup(byte: u8) -> bool
    ensures { result ≡ false → byte_text byte ≡ byte ∷ [] }
{
    matches!(byte, b'&' | b'<' | b'>' | b'"' | b'\'')
}

// Whether nothing of a text is markup.
fn is_plain(text: &[u8]) -> bool
    ensures { result ≡ true → escaped text.now ≡ text.now }
{
    for byte in text {
        if is_markup(*byte) {
            return false;
        }
    }
    true
}

/// Puts a text, escaped.
///
/// # Errors
///
/// [`WriteFailed`] where the Out failed: it took a beginning of the text.
pub(crate) fn put_escaped<O: Out>(out: &mut O, text: &[u8]) -> Result<(), WriteFailed>
    ensures { Puts result (O.held out.old) (O.held out.new) (escaped text.now) }
{
    if is_plain(text) {
        return out.put(text);
    }
    for byte in text {
        put_byte(out, *byte)?;
    }
    Ok(())
}

// Names as they are shown.
use crate::Text;
use crate::records::encoding_of;
use crate::spelled::bytes_of;
use dbbytes::{name_text, plain_name_text};
use dbformat::Encoding;
use dbsource::{MemOut, Out, StreamOut, WriteFailed};
use std::alloc::Global;
use std::fmt::Write;

// A name, where it must not turn a line around, or elsewhere.
#[derive(Clone, Copy)]
struct Name<'a> {
    bytes: &'a [u8],
    encoding: Encoding,
    is_plain: bool,
}

impl Name<'_> {
    fn put<O: Out>(&self, out: &mut O) -> Result<(), WriteFailed> {
        if self.is_plain {
            plain_name_text(self.bytes, self.encoding, out)
        } else {
            name_text(self.bytes, self.encoding, out)
        }
    }
}

/// Adds a name, in which each character beyond those of ASCII is shown by its number, as `\u{e9}`. Where there is too little room a beginning
/// is put.
pub(crate) fn add_name(alloc: Global, of: &str, is_plain: bool, text: &mut Text) -> Option<()> {
    let (encoding, spelled) = of.split_once(' ')?;
    let encoding = encoding_of(encoding)?;
    let bytes = bytes_of(spelled)?;
    let name = Name {
        bytes: bytes.as_slice(),
        encoding,
        is_plain,
    };
    let mut out = MemOut::new(alloc);
    name.put(&mut out).ok()?;
    add_text(&name, out.bytes(), text);
    Some(())
}

fn add_text(name: &Name<'_>, shown: &[u8], text: &mut Text) {
    if !shown.is_empty() {
        let _ = text.try_push(' ');
    }
    for letter in str::from_utf8(shown).unwrap_or("not UTF-8").chars() {
        if letter.is_ascii() {
            let _ = text.try_push(letter);
        } else {
            let _ = write!(text, "\\u{{{:x}}}", letter as u32);
        }
    }
    for room in 0..shown.len() {
        if leaves_beginning(name, shown, room) != Some(true) {
            let _ = write!(text, ", and another beginning in {room} bytes");
        }
    }
}

// Whether a put into so little room fails, and leaves a beginning of what is shown.
fn leaves_beginning(name: &Name<'_>, shown: &[u8], room: usize) -> Option<bool> {
    let mut bytes = [0; 64];
    let mut out = StreamOut::new(bytes.get_mut(..room)?);
    let put = name.put(&mut out);
    Some(put == Err(WriteFailed) && bytes.get(..room) == shown.get(..room))
}

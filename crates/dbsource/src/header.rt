// The header of a database (Database File Format, 1.3).
ghost use Rattle.std.specs.Prelude.{◌≡◌, ◌≤◌, length, IfOk, None};
ghost use Rattle.dbformat.specs.FixedPages.{geometry_of, IsInRange};
ghost use Rattle.dbformat.specs.File.{refusal_of};
ghost use Rattle.dbsource.specs.Answers.{given};
ghost use Rattle.dbsource.specs.Headers.{Opens};

use crate::geometry::{geometry_of, refusal_of};
use crate::header_words::HEADER_LEN;
use crate::{Geometry, OpenError, Refusal, Source};
use std::marker::Model;

/// The header of a file that is not refused: its first 100 bytes, its length in bytes, and the shape that these give it.
#[derive(Clone, Copy)]
pub struct Header {
    bytes: [u8; 100],
    file_len: u64,
    geometry: Geometry,
}

impl Model for Header {
    ghost use Rattle.std.specs.Prelude.{◌≡◌, None, length};
    ghost use Rattle.std.proofs.Common.{sym};
    ghost use Rattle.dbformat.specs.FixedPages.{geometry_of};
    ghost use Rattle.dbformat.specs.File.{refusal_of};
    ghost use Rattle.dbsource.specs.HeaderBytes.{HeaderBytes};

    ghost Value = { HeaderBytes };

    ghost view = { λ h. record { bytes = h.bytes; file_len = h.file_len } };

    ghost invariant = { λ h. (refusal_of h.bytes h.file_len ≡ None) × (h.geometry ≡ geometry_of h.bytes h.file_len) };

    ghost inverse = { λ h. record { bytes = h.bytes; file_len = h.file_len; geometry = geometry_of h.bytes h.file_len } };

    ghost inverse_ok = { λ h is i. record { bytes = h.bytes; file_len = h.file_len; geometry = sym is.1 i } };
}

impl Header {
    /// Reads the header of `source`: its length, and then its first 100 bytes, once, if it has that many.
    ///
    /// # Errors
    ///
    /// [`OpenError::Refused`] where length and bytes say that the file is not to be read, [`OpenError::ReadFailed`]
    /// exactly where the source failed. A file of fewer than 100 bytes is refused by its length, before any read.
    pub fn read<S: Source>(source: &mut S) -> Result<Header, OpenError>
        ensures opens { Opens S.step S.lengths result (S.held source.old) (S.held source.new) }
        // What the header was read of.
        ensures read { IfOk result (λ h. S.step (S.held source.old).trail (given 0 h.bytes) (S.held source.new).trail) }
        ensures accepted { IfOk result (λ h. (refusal_of h.bytes h.file_len ≡ None) × (length h.bytes ≡ 100)) }
    {
        let file_len = source.len()?;
        if file_len < HEADER_LEN as u64 {
            return Err(OpenError::Refused(Refusal::Short));
        }
        let mut bytes = [0u8; 100];
        source.read_at(0, &mut bytes)?;
        match refusal_of(&bytes, file_len) {
            Some(refusal) => Err(OpenError::Refused(refusal)),
            None => Ok(Header::accepted(bytes, file_len)),
        }
    }

    /// The first 100 bytes of the file.
    pub fn bytes(&self) -> &[u8]
        ensures bytes { result.now ≡ self.now.bytes }
        ensures len { length result.now ≡ 100 }
    {
        &self.bytes
    }

    /// The length of the file in bytes.
    pub fn file_len(&self) -> u64
        ensures { result ≡ self.now.file_len }
    {
        self.file_len
    }

    /// The shape of the file.
    #[tactic(auto, using(crate::proofs::Headers::geometry_range))]
    pub fn geometry(&self) -> Geometry
        ensures shape { result ≡ geometry_of self.now.bytes self.now.file_len }
        ensures range { IsInRange result }
        ensures accepted { (refusal_of self.now.bytes self.now.file_len ≡ None) × (length self.now.bytes ≡ 100) }
    {
        self.geometry
    }

    // The header of a file that is not refused.
    fn accepted(bytes: [u8; 100], file_len: u64) -> Header
        requires long { 100 ≤ file_len }
        requires read { refusal_of bytes file_len ≡ None }
        ensures bytes { result.bytes ≡ bytes }
        ensures file_len { result.file_len ≡ file_len }
    {
        let geometry = geometry_of(&bytes, file_len);
        Header {
            bytes,
            file_len,
            geometry,
        }
    }
}

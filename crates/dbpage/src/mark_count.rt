// A count of marks that takes no bytes.
ghost use Rattle.std.specs.Prelude.{◌≡◌, ℕ, ◌+◌, ◌<◌};

use std::marker::Model;
use std::sync::ledger::{Blank, Book, Ledger, Share};

/// How many marks were made, as contracts see it: it takes no bytes, and counting does nothing at run time. Only `add`
/// changes it, and it never falls.
#[derive(Drop)]
pub struct MarkCount<L: Ledger> {
    book: Book<L>,
    share: Share<L>,
}

impl<L: Ledger> Model for MarkCount<L> {
    ghost Value = { ℕ };

    ghost view = { λ s. s.book.total };

    ghost invariant = { λ s. 0 < s.share.parts };
}

impl<L: Ledger> MarkCount<L> {
    /// A counter at 0, of the ledger that `blank` opens.
    pub fn new(blank: Blank) -> MarkCount<L>
        requires name { blank.name ≡ L.name }
        requires parts { blank.parts ≡ L.parts }
        requires some { 0 < blank.parts }
        ensures { result ≡ 0 }
    {
        let (book, share) = blank.open::<L>();
        MarkCount { book, share }
    }

    /// Counts `n` marks.
    #[inline(always)]
    pub fn add(&mut self, n: u32)
        ensures { self.new ≡ self.old + n }
    {
        self.book.add(&mut self.share, u64::from(n));
    }
}

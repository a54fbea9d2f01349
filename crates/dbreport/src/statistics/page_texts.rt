// The texts of what a page is.
ghost use Rattle.std.specs.Prelude.{◌≡◌, ◌≤◌, length};
ghost use Rattle.dbformat.specs.Lines.{pagetype_text, other_text};
ghost use Rattle.dbreport.specs.Columns.{other_of};

use dbwalk::PageType;

// What a page is that is in no tree and in no overflow chain.
#[derive(Clone, Copy)]
pub(crate) enum OtherPage {
    Trunk,
    FreeLeaf,
    Map,
    Lock,
    Unowned,
}

// What a page of a tree or of an overflow chain is.
pub(crate) fn pagetype_text(pagetype: PageType) -> &'static str
    ensures text { result.now ≡ pagetype_text pagetype }
    ensures short { length result.now ≤ 8 }
{
    match pagetype {
        PageType::Tree(kind) if kind.is_interior() => "internal",
        PageType::Tree(_) => "leaf",
        PageType::Damaged => "damaged",
        PageType::Overflow => "overflow",
    }
}

// What another page is.
pub(crate) fn other_text(what: OtherPage) -> &'static str
    ensures text { result.now ≡ other_text (other_of what) }
    ensures short { length result.now ≤ 8 }
{
    match what {
        OtherPage::Trunk => "trunk",
        OtherPage::FreeLeaf => "freeleaf",
        OtherPage::Map => "map",
        OtherPage::Lock => "lock",
        OtherPage::Unowned => "unowned",
    }
}

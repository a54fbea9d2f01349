// The list of all codes of faults, and where each is in it.
ghost use Rattle.std.specs.Prelude.{◌≡◌, ◌<◌, Some, slice_get};
ghost use Rattle.dbformat.specs.Codes.{all_codes, code_index, IsListedOnce, AreReportedApart};

use crate::FaultCode;

impl FaultCode {
    /// How many codes there are.
    pub const COUNT: usize = 35;

    /// All codes, in the order in which a summary shows them. A code has its place here by [`FaultCode::index`].
    pub fn all() -> [FaultCode; FaultCode::COUNT]
        ensures { result ≡ all_codes }
    {
        [
            FaultCode::H01,
            FaultCode::H02,
            FaultCode::H03,
            FaultCode::H04,
            FaultCode::H05,
            FaultCode::H06,
            FaultCode::H07,
            FaultCode::H08,
            FaultCode::H09,
            FaultCode::H10,
            FaultCode::P01,
            FaultCode::P02,
            FaultCode::P03,
            FaultCode::P04,
            FaultCode::P05,
            FaultCode::P06,
            FaultCode::P07,
            FaultCode::P08,
            FaultCode::P09,
            FaultCode::P10,
            FaultCode::R01,
            FaultCode::R02,
            FaultCode::R03,
            FaultCode::T04,
            FaultCode::T05,
            FaultCode::T06,
            FaultCode::O01,
            FaultCode::L01,
            FaultCode::S01,
            FaultCode::S02,
            FaultCode::S03,
            FaultCode::S04,
            FaultCode::N01,
            FaultCode::M01,
            FaultCode::M02,
        ]
    }

    /// The place of a code in the list of all: 0 for the first, below [`FaultCode::COUNT`].
    #[inline(always)]
    pub fn index(self) -> usize
        ensures index { result ≡ code_index self }
        ensures listed { slice_get all_codes result ≡ Some self }
        ensures within { result < 35 }
    {
        self as usize
    }
}

/// Each code is in the list of all codes, once, and two codes have two indexes.
pub fn codes_are_listed()
    ensures listed { IsListedOnce }
    ensures apart { AreReportedApart }
{}

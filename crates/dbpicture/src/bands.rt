// How a square of several owners is divided in bands.
ghost use Rattle.std.specs.Prelude.{◌≡◌, ◌≤◌, ◌<◌, get_or, replicate};
ghost use Rattle.dbpicture.specs.Owners.{first_most};
ghost use Rattle.dbpicture.specs.Groups.{bands_of, claim, claims};

use crate::owner_shares::{OWNERS, OwnerShares};

/// How many bands a square has, each of which is a pixel high.
pub(crate) const BANDS: u32 = 6;

/// How many of a square's bands each owner has.
#[derive(Clone, Copy)]
pub(crate) struct Bands {
    heights: [u32; OWNERS],
}

// What an owner claims that has `pages` of a square's `all` pages and `height` bands: what its pages are worth beyond these bands, where a
// band is worth a sixth of all pages. An owner without a band claims more than any that has one.
fn claim(pages: u32, height: u32, all: u32) -> u64
    ensures { result ≡ claim pages height all }
{
    let worth = u64::from(pages) * u64::from(BANDS);
    if pages == 0 {
        0
    } else if height == 0 {
        worth + u64::from(all) * u64::from(BANDS)
    } else {
        worth.saturating_sub(u64::from(height) * u64::from(all))
    }
}

impl Bands {
    /// No owner has a band.
    pub(crate) fn none() -> Bands
        ensures { result.heights ≡ replicate 17 0 }
    {
        Bands {
            heights: [0; OWNERS],
        }
    }

    /// The bands of the owner with a number.
    pub(crate) fn height(&self, number: usize) -> u32
        requires { number < 17 }
        ensures { result ≡ get_or self.now.heights number 0 }
    {
        self.heights[number]
    }

    // What the owner with a number claims.
    fn claim(&self, shares: &OwnerShares, all: u32, number: usize) -> u64
        requires { number < 17 }
        ensures { result ≡ claims shares.now all self.now.heights number }
    {
        claim(shares.share(number).pages, self.height(number), all)
    }

    /// The owner that claims most; of several the first.
    pub(crate) fn next(&self, shares: &OwnerShares, all: u32) -> usize
        ensures next { result ≡ first_most (claims shares.now all self.now.heights) 17 }
        ensures most { result ≤ 16 }
    {
        let mut next = 0;
        let mut most = self.claim(shares, all, 0);
        for number in 0..OWNERS {
            let claim = self.claim(shares, all, number);
            if claim > most {
                next = number;
                most = claim;
            }
        }
        next
    }

    /// Divides a square of `all` pages: each band goes to the owner that claims most.
    pub(crate) fn divide(shares: &OwnerShares, all: u32) -> Bands
        ensures { result ≡ bands_of shares.now all }
    {
        let mut bands = Bands::none();
        for _ in 0..BANDS {
            let next = bands.next(shares, all);
            bands.heights[next] = bands.heights[next].saturating_add(1);
        }
        bands
    }
}

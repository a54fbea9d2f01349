// The law of owners.
ghost use Rattle.std.specs.Prelude.{ℕ, List};
ghost use Rattle.dbscan.specs.Owners.{AreOwned};

/// A visited page is owned: by the freelist, or by the tree of a root page, whose start is the first that names it.
pub fn visited_pages_are_owned()
    ensures { (file : List ℕ) → AreOwned file }
{}

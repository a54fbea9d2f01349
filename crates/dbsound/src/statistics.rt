//! What the rows of the statistics count, which is apart from soundness: it holds of each file, sound or not.

ghost use Rattle.std.specs.Prelude.{ℕ, List};
ghost use Rattle.dbsound.specs.Statistics.{SizesAddUp, CountsPagesOnce, CountsPagesOnceAtMost};

/// The rows of a form of the statistics that shows all pages count each page of the file once, and where the file is read
/// their column `pgsize` adds up to the size of all pages. In every form a page is counted once at most.
pub fn rows_count_each_page()
    ensures once { (file : List ℕ) → CountsPagesOnce file }
    ensures sizes { (file : List ℕ) → SizesAddUp file }
    ensures at_most { (file : List ℕ) → CountsPagesOnceAtMost file }
{}

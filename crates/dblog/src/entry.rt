// The entries of an index.
ghost use Rattle.std.specs.Prelude.{◌≡◌, ◌+◌, ◌<◌, ◌≤◌, length, drop, take, slice_index_or};
ghost use Rattle.std.specs.List.{AllPairs};
ghost use Rattle.dblog.specs.Entries.{is_replaced, is_replaced_by_first, latest, named_frame};

/// From which frame of a log a page is read, where the first frame is 0. Of a rollback journal the number is that of the unit of eight
/// bytes where the record of the page begins.
#[derive(Clone, Copy, Debug, PartialEq, Eq, PartialOrd, Ord)]
pub struct Entry {
    page: u32,
    frame: u32,
}

impl Entry {
    /// The page.
    pub fn page(self) -> u32
        ensures { result ≡ self.page }
    {
        self.page
    }

    /// The frame that it is read from.
    pub fn frame(self) -> u32
        ensures { result ≡ self.frame }
    {
        self.frame
    }

    pub(crate) fn new(page: u32, frame: u32) -> Entry
        ensures { result ≡ (record { page = page; frame = frame }) }
    {
        Entry { page, frame }
    }

    // Whether nothing is lost without this entry, where there is the other one.
    fn is_replaced(self, other: Entry, committed: u32) -> bool
        ensures { result ≡ is_replaced committed self other }
    {
        self.page == other.page
            && self.frame <= other.frame
            && (other.frame < committed || committed <= self.frame)
    }
}

// Whether nothing is lost without this entry, where these come after it.
fn is_replaced_by_first(entry: Entry, later: &[Entry], committed: u32) -> bool
    ensures { result ≡ is_replaced_by_first committed entry later.now }
{
    match later.first() {
        Some(next) => entry.is_replaced(*next, committed),
        None => false,
    }
}

// Moves the entries that the next one does not replace to the front, and answers how many they are.
pub(crate) fn keep_latest(entries: &mut [Entry], committed: u32) -> usize
    ensures kept { take result entries.new ≡ latest committed entries.old }
    ensures count { result ≤ length entries.old }
{
    let mut count = 0;
    for i in 0..entries.len() {
        let entry = entries[i];
        if !is_replaced_by_first(entry, &entries[i + 1..], committed) {
            entries[count] = entry;
            count += 1;
        }
    }
    count
}

// The frame that is named for a page, if one is: the pages rise.
pub(crate) fn named_frame(entries: &[Entry], page: u64) -> Option<u32>
    requires { AllPairs (λ d e. d.page < e.page) entries.now }
    ensures { result ≡ named_frame entries.now page }
{
    let place = entries.partition_point(|entry| u64::from(entry.page()) < page);
    match entries.get(place) {
        Some(entry) if u64::from(entry.page()) == page => Some(entry.frame()),
        _ => None,
    }
}

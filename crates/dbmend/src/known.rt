// What is known of a file before a change.
ghost use Rattle.std.specs.Prelude.{◌≡◌, ◌-◌, ◌^◌};

use crate::counting::Findings;
use std::alloc::Allocator;

// What a run found. A file that is refused has no findings, and as many faults as are ever counted.
#[derive(Drop)]
pub(crate) struct Known<A: Allocator> {
    pub(crate) faults: u64,
    pub(crate) findings: Option<Findings<A>>,
}

impl<A: Allocator> Known<A> {
    // A file of which a run found this.
    pub(crate) fn of(findings: Findings<A>) -> Known<A>
        ensures { result.faults ≡ findings.count.faults }
    {
        Known {
            faults: findings.count.faults,
            findings: Some(findings),
        }
    }

    // A file that is refused.
    pub(crate) fn of_refused() -> Known<A>
        ensures { result.faults ≡ 2 ^ 64 - 1 }
    {
        Known {
            faults: u64::MAX,
            findings: None,
        }
    }
}

// Faults that are reported one after another, and those of the header.
ghost use Rattle.std.specs.Prelude.{◌≡◌, map, false};
ghost use Rattle.dbformat.specs.HeaderFaults.{header_faults};
ghost use Rattle.dbtrace.specs.declared.Part.TheVariants as part;
ghost use Rattle.dbscan.specs.Notices.{whole};
ghost use Rattle.dbscan.specs.Reporting.{AreReceived, items_of};

use crate::header_faults::header_faults as faults_of;
use crate::notice::Notice;
use crate::reporter::{Reporter, ask};
use dbformat::Fault;
use dbsource::{Header, RunError};
use dbtrace::{Cause, Part, TracedFault};

// Reports those that are faults, in this part of the report, and asks whether all were taken.
pub(crate) fn report_all<K: Reporter>(
    part: Part,
    faults: &[Option<Fault>],
    reporter: &mut K,
) -> Result<(), RunError>
    requires { (K.held reporter.old).is_shut ≡ false }
    ensures { AreReceived K.receives K.held result reporter.old (items_of part faults.now) reporter.new }
{
    for fault in faults {
        if let Some(fault) = fault {
            reporter.receive(&Notice::Fault(&TracedFault {
                part,
                fault: *fault,
                cause: Cause::Itself,
            }));
        }
    }
    ask(reporter)
}

/// Reports the faults of the header.
///
/// # Errors
///
/// [`RunError::WriteFailed`] exactly where the reporter failed: it is shut then.
pub fn report_header<K: Reporter>(header: &Header, reporter: &mut K) -> Result<(), RunError>
    requires { (K.held reporter.old).is_shut ≡ false }
    ensures { AreReceived K.receives K.held result reporter.old (map (whole part.Header) (header_faults header.now.bytes header.now.file_len)) reporter.new }
{
    let faults = faults_of(header);
    report_all(Part::Header, &faults, reporter)
}

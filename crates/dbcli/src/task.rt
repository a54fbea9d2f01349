// What a line asks for.
use crate::request::Request;

/// What is to be done with a file.
#[derive(Clone, Copy)]
pub enum Task<'a> {
    /// One run over it, for this request.
    Run(Request<'a>),
    /// Runs over it with other bytes, to find changes with which it has fewer faults: at most `limit`, which is from 1 to 16.
    Mend { limit: u32 },
}

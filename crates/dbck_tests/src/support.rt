// Outs, sources, files and tables of the tests.
pub(crate) mod bytes;
pub(crate) mod cases;
pub(crate) mod fake_files;
pub(crate) mod fakes;
pub(crate) mod files;
pub(crate) mod peeking;
pub(crate) mod samples;
pub(crate) mod stated;
pub(crate) mod stops;
pub(crate) mod versions;

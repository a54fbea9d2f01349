// What runs are made of: sources, headers, page buffers, the list of roots and outs.
mod benches;
mod buffered_outs;
mod file_sources;
mod headers;
mod outs;
mod patched_sources;
mod read_ahead;
mod roots;
mod told_files;

// Statistics of whole files beside those of tests/small.
mod sizes;

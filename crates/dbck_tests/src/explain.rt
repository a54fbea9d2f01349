// `explain` where something is refused to it. What it writes of whole files is in tests/explain and tests/small.
mod refused;

// `map` where something is refused to it. What it draws of whole files is in tests/small.
mod refused;

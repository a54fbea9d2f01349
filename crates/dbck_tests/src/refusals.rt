// What is refused to a run, each thing in turn: reads, writes and growths.
mod growths;
mod reads;
mod writes;

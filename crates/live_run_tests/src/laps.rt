//! Lines that go on interval by interval, over wires in memory.
mod lines;
mod support;
mod watch;

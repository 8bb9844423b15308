//! A source over a reader and a sink over a writer, such as standard input and output. What they tell is what the contract of the
//! reader or the writer tells.
#![tactic(auto)]

mod reader;
mod writer;

pub use reader::{ReaderSource, SteadyReader};
pub use writer::{SteadyWriter, WriterSink};

//! Tests of what no script shows: input that comes in parts, reads and writes that fail, and the words of a call.
#![tactic(auto)]

#[cfg(test)]
mod input;
#[cfg(test)]
mod words;

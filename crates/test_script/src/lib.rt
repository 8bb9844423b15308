//! Tests of texts: the lines of a script, of a transcript, of a decoded capture, and generated scripts.
#![tactic(auto)]

#[cfg(test)]
mod captures;
#[cfg(test)]
mod journals;
#[cfg(test)]
mod scripts;
#[cfg(test)]
mod shown;
#[cfg(test)]
mod storms;

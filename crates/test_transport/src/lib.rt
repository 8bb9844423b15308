//! Tests of transport: due ticks, numbers, the halves of a connection, its ends row by row of the state tables, the ends of a system,
//! and a network with them.
#![tactic(auto)]

#[cfg(test)]
mod connections;
#[cfg(test)]
mod due;
#[cfg(test)]
mod entities;
#[cfg(test)]
mod numbers;
#[cfg(test)]
mod receiving;
#[cfg(test)]
mod sending;
#[cfg(test)]
mod words;
#[cfg(test)]
mod worlds;

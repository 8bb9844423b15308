//! Tests of the codecs over octets counted by hand, with checksums from outside: sources and sinks, addresses, parts of headers, LAN frames, options, CLNP PDUs, hellos, TPDUs, UDs.
#![tactic(auto)]

#[cfg(test)]
mod addresses;
#[cfg(test)]
mod base;
#[cfg(test)]
mod frames;
#[cfg(test)]
mod hellos;
#[cfg(test)]
mod options;
#[cfg(test)]
mod parts;
#[cfg(test)]
mod pdus;
#[cfg(test)]
mod tpdus;
#[cfg(test)]
mod uds;

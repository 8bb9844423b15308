//! Tests of the network: LANs, the inactive subset, routes, what is known of neighbours.
#![tactic(auto)]

#[cfg(test)]
mod carriers;
#[cfg(test)]
mod inactive;
#[cfg(test)]
mod lans;
#[cfg(test)]
mod neighbours;
#[cfg(test)]
mod routes;

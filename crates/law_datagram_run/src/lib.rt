//! What datagrams do along the lines of a script, over every network that a set-up makes (X.234, connectionless transport protocol).
#![tactic(auto)]

//! The lines of the scripts of each command, with what they say. Those that it refuses stand in `examples/rows` (`datagram-lines-refused.rows`, `inactive-lines-refused.rows`,
//! `relay-lines-refused.rows`, `run-lines.rows`).

/// Datagrams are sent between end systems, and no connection is made.
pub const DATAGRAMS: &str = "set life 16 | set [0, 16, 0, 0, 0, 0]
lan x 2 1497 | lan [0, 2, 1497, 0, 0, 0]
es a 490a00 | es [0, 0, 0, 0, 0, 0] 490a00
es b 490b00 | es [1, 0, 0, 0, 0, 0] 490b00
is r 490900 | is [2, 0, 0, 0, 0, 0] 490900
port a x 02000000000a | port [0, 0, 0, 0, 0, 0] 02000000000a
port r x 020000000900 | port [2, 0, 0, 0, 0, 0] 020000000900
route a - r x | route [0, 2, 0, 0, 0, 0]
path p partial r | path [1, 0, 0, 0, 0, 0] 02
tsap b bb | tsap [1, 0, 0, 0, 0, 0] bb
start | start [0, 0, 0, 0, 0, 0]
send a aa b bb - | send [0, 1, 0, 0, 0, 0] aa bb
send b FF a 000102030405060708090a0b0c0d0e0f101112131415161718191a1b1c1d1e1f 0aFF | send [1, 0, 0, 0, 0, 0] ff 000102030405060708090a0b0c0d0e0f101112131415161718191a1b1c1d1e1f 0aff
send a aa a aa 00 | send [0, 0, 0, 0, 0, 0] aa aa 00
tick | tick [0, 0, 0, 0, 0, 0]
settle | settle [0, 0, 0, 0, 0, 0]
deliver 1 r | deliver [1, 2, 0, 0, 0, 0]";

/// Connections of version 2 on LANs alone: no intermediate system, no route, no raw unit.
pub const INACTIVE: &str = "set life 16 | set [0, 16, 0, 0, 0, 0]
lan x 2 1497 | lan [0, 2, 1497, 0, 0, 0]
es a 490a00 | es [0, 0, 0, 0, 0, 0] 490a00
es b 490b00 | es [1, 0, 0, 0, 0, 0] 490b00
port a x 02000000000a | port [0, 0, 0, 0, 0, 0] 02000000000a
tsap b bb | tsap [1, 0, 0, 0, 0, 0] bb
start | start [0, 0, 0, 0, 0, 0]
connect a aa b bb normal p11 exp sum - | connect p [0, 1, 0, 1408, 1, 1] aa bb
accept 1 normal 128 exp sum - | accept [1, 0, 0, 128, 1, 1]
refuse 1 - | refuse [1, 0, 0, 0, 0, 0]
disconnect 1 - | disconnect [1, 0, 0, 0, 0, 0]
data 1 00 | data [1, 0, 0, 0, 0, 0] 00
expedite 1 00 | expedite [1, 0, 0, 0, 0, 0] 00
window 1 0 | window [1, 0, 0, 0, 0, 0]
tick | tick [0, 0, 0, 0, 0, 0]
settle | settle [0, 0, 0, 0, 0, 0]
deliver 1 b | deliver [1, 1, 0, 0, 0, 0]
restart b | restart [1, 0, 0, 0, 0, 0]";

/// Connections of version 2 and relays, which are at end systems and lead to another one. Systems a, b, c and r have the numbers 0 to 3.
pub const RELAY: &str = "set life 16 | set [0, 16, 0, 0, 0, 0]
lan x 2 1497 | lan [0, 2, 1497, 0, 0, 0]
es a 490a00 | es [0, 0, 0, 0, 0, 0] 490a00
es b 490b00 | es [1, 0, 0, 0, 0, 0] 490b00
es c 490c00 | es [2, 0, 0, 0, 0, 0] 490c00
is r 490900 | is [3, 0, 0, 0, 0, 0] 490900
port a x 02000000000a | port [0, 0, 0, 0, 0, 0] 02000000000a
port r x 020000000900 | port [3, 0, 0, 0, 0, 0] 020000000900
route a - r x | route [0, 3, 0, 0, 0, 0]
path p partial r | path [1, 0, 0, 0, 0, 0] 03
tsap b bb | tsap [1, 0, 0, 0, 0, 0] bb
relay c cc b bb | relay [2, 1, 0, 0, 0, 0] cc bb
relay c cd b bb | relay [2, 1, 0, 0, 0, 0] cd bb
relay a cc c 000102030405060708090a0b0c0d0e0f101112131415161718191a1b1c1d1e1f | relay [0, 2, 0, 0, 0, 0] cc 000102030405060708090a0b0c0d0e0f101112131415161718191a1b1c1d1e1f
relay c 000102030405060708090a0b0c0d0e0f101112131415161718191a1b1c1d1e1f a FF | relay [2, 0, 0, 0, 0, 0] 000102030405060708090a0b0c0d0e0f101112131415161718191a1b1c1d1e1f ff
tsap c dd | tsap [2, 0, 0, 0, 0, 0] dd
start | start [0, 0, 0, 0, 0, 0]
connect a aa b bb normal p11 exp sum - | connect p [0, 1, 0, 1408, 1, 1] aa bb
accept 1 normal 128 exp sum - | accept [1, 0, 0, 128, 1, 1]
refuse 1 - | refuse [1, 0, 0, 0, 0, 0]
disconnect 1 - | disconnect [1, 0, 0, 0, 0, 0]
data 1 00 | data [1, 0, 0, 0, 0, 0] 00
expedite 1 00 | expedite [1, 0, 0, 0, 0, 0] 00
window 1 0 | window [1, 0, 0, 0, 0, 0]
unit a b - p 00 | unit [0, 1, 0, 0, 0, 1] 00
tick | tick [0, 0, 0, 0, 0, 0]
settle | settle [0, 0, 0, 0, 0, 0]
deliver 1 b | deliver [1, 1, 0, 0, 0, 0]";

/// Version 2 of the scripts of `run` has restarts.
pub const RUN: &str = "version 2 | version [2, 0, 0, 0, 0, 0]
es a 490a00
es b 490b00
start
restart a | restart [0, 0, 0, 0, 0, 0]";

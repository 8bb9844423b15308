//! Lines, each with what it says; refused lines stand in `examples/rows` (`setup-lines.rows`, `event-lines.rows`, `limits.rows` and others). Columns were counted
//! by hand.

/// Each line word in its least form and in its fullest. Systems a, c47, r and router12 have the numbers 0 to 3,
/// LANs x and lanABC12 0 and 1.
pub const LINES: &str = " | nothing [0, 0, 0, 0, 0, 0]
# lan x 1 264 | nothing [0, 0, 0, 0, 0, 0]
set ct 0 | set [7, 0, 0, 0, 0, 0]
set life 255 | set [0, 255, 0, 0, 0, 0]
set t1 1 | set [1, 1, 0, 0, 0, 0]
set w 254 | 7 range
set i 255 | set [3, 255, 0, 0, 0, 0]
set w 254 | set [2, 254, 0, 0, 0, 0]
set n 2 | set [4, 2, 0, 0, 0, 0]
set refs 64 | set [5, 64, 0, 0, 0, 0]
set credit 15 | set [6, 15, 0, 0, 0, 0]
set hold 1 | set [8, 1, 0, 0, 0, 0]
lan x 1 264 | lan [0, 1, 264, 0, 0, 0]
lan lanABC12 16 1497 | lan [1, 16, 1497, 0, 0, 0]
es a 4900 | es [0, 0, 0, 0, 0, 0] 4900
es c47 490102030405060708090A0B0C0D0E0F10111200 | es [1, 0, 0, 0, 0, 0] 490102030405060708090a0b0c0d0e0f10111200
is r 4900 | 6 repeat
is r 49ff00 | is [2, 0, 0, 0, 0, 0] 49ff00
is router12 ff0102030405060708090a0b0c0d0e0f10111200 | is [3, 0, 0, 0, 0, 0] ff0102030405060708090a0b0c0d0e0f10111200
port a x 02000000000a | port [0, 0, 0, 0, 0, 0] 02000000000a
port c47 lanABC12 02000000000B | port [1, 1, 0, 0, 0, 0] 02000000000b
port r lanABC12 02000000000c | port [2, 1, 0, 0, 0, 0] 02000000000c
route c47 - r lanABC12 | route [1, 2, 1, 0, 0, 0]
route r 490102030405060708090a0b0c0d0e0f10111213 c47 lanABC12 | route [2, 1, 1, 0, 0, 0] 490102030405060708090a0b0c0d0e0f10111213
path p partial r | path [1, 0, 0, 0, 0, 0] 02
path q complete r,r,r,r | path [2, 1, 0, 0, 0, 0] 02020202
tsap a bb | tsap [0, 0, 0, 0, 0, 0] bb
tsap c47 000102030405060708090a0b0c0d0e0f101112131415161718191a1b1c1d1e1f | tsap [1, 0, 0, 0, 0, 0] 000102030405060708090a0b0c0d0e0f101112131415161718191a1b1c1d1e1f
start | start [0, 0, 0, 0, 0, 0]
connect a aa c47 bbcc normal 128 noexp nosum - | connect [0, 1, 0, 128, 0, 0] aa bbcc
connect c47 00 a FF extended 8192 exp sum 0aFF | connect [1, 0, 1, 8192, 1, 1] 00 ff 0aff
accept 0 normal 256 exp nosum - | accept [0, 0, 0, 256, 1, 0]
accept 999999999 extended 2048 noexp sum 01 | accept [999999999, 0, 1, 2048, 0, 1] 01
refuse 0 - | refuse [0, 0, 0, 0, 0, 0]
refuse 999999999 0102 | refuse [999999999, 0, 0, 0, 0, 0] 0102
disconnect 0 - | disconnect [0, 0, 0, 0, 0, 0]
disconnect 999999999 03 | disconnect [999999999, 0, 0, 0, 0, 0] 03
data 0 - | data [0, 0, 0, 0, 0, 0]
data 999999999 04 | data [999999999, 0, 0, 0, 0, 0] 04
expedite 0 - | expedite [0, 0, 0, 0, 0, 0]
expedite 999999999 05 | expedite [999999999, 0, 0, 0, 0, 0] 05
window 0 0 | window [0, 0, 0, 0, 0, 0]
window 999999999 255 | window [999999999, 255, 0, 0, 0, 0]
unit a c47 - - - | unit [0, 1, 0, 0, 0, 0]
unit c47 a ser q 00ff | unit [1, 0, 1, 1, 1, 2] 00ff
unit a a sr p 01 | unit [0, 0, 1, 0, 1, 1] 01
tick | tick [0, 0, 0, 0, 0, 0]
settle | settle [0, 0, 0, 0, 0, 0]
deliver 0 a | deliver [0, 0, 0, 0, 0, 0]
deliver 999999999 router12 | deliver [999999999, 3, 0, 0, 0, 0]
inject x c47 - | inject [0, 1, 0, 0, 0, 0]
inject lanABC12 r 81 | inject [1, 2, 0, 0, 0, 0] 81";

/// A script of version 1: it may say so, behind lines that do nothing.
pub const VERSION_1: &str = "# a comment
 | nothing [0, 0, 0, 0, 0, 0]
version 1 | version [1, 0, 0, 0, 0, 0]
es a 490a00
start
accept 1 normal 128 exp sum - | accept [1, 0, 0, 128, 1, 1]";

/// A script of version 2: preferred sizes, told by `p`, are 128 octets 1 to 128 times.
pub const VERSION_2: &str = "version 2 | version [2, 0, 0, 0, 0, 0]
es a 490a00
start
accept 1 normal p1 exp sum - | accept p [1, 0, 0, 128, 1, 1]
accept 1 normal p11 exp sum - | accept p [1, 0, 0, 1408, 1, 1]
accept 1 normal p64 exp sum - | accept p [1, 0, 0, 8192, 1, 1]
accept 1 normal p128 exp sum - | accept p [1, 0, 0, 16384, 1, 1]
accept 1 normal 8192 exp sum - | accept [1, 0, 0, 8192, 1, 1]";

/// Lines with characters that are not printable.
pub const CONTROLS: &str = "tick\u{7f} | 5 ascii
# \t | 3 ascii
start\r | 6 ascii
ticks\u{7f} | 6 ascii";

//! The table of the tests.

/// The rows of each state, with each TPDU and each call: what comes of it where it is the next that the end hears. The expected answers
/// are those of the standard's state tables.
///
/// `state` begins a state, and has what is shown of it; the lines behind `do` lead there, as in the script. Behind `take` and `any` are
/// TPDUs of the partner, and behind `call` calls of the user. What is behind `take` has to have a checksum, where one is agreed. From
/// another address each TPDU matches nothing. `{format}`, `{sum}` and `{extra}` are what both ends ask for: formats, checksums, and both
/// in the octet of a CC; `{mark}` is how TPDUs are shown of an end that has agreed on them.
pub const TABLE: &str = "\
state CrWait 8
do connect {format} 1024 exp {sum} 0a
take cc 8 7 {format} 1024 {extra} 0d = Opened 20 / Confirm Options {Format} 1024 true {Sum} false [13] / Ak 7 0 8 0 None{mark}
take cc 8 7 {format} 2048 {extra} 0d = Closing 8 / Gone Protocol [] / Dr 7 1 133 None []
any dr 7 3 0e = Frozen 157 / Gone Reason 3 [14] / Dc 7 1
any dr 0 3 0e = Frozen 157 / Gone Reason 3 [14]
any cr, dc 7, dt eot 0 05, ed 0 ee, ak 0 8 0, ea 0, er = unknown CrWait 8
call disconnect 0b = WaitBeforeClose 8
call accept {format} 1024 exp {sum} -, refuse -, normal 01, urgent ee, window 5 = no WrongState(CrWait) CrWait 8

state WaitBeforeClose 8
do connect {format} 1024 exp {sum} 0a
do disconnect 0b
take cc 8 7 {format} 1024 {extra} 0d = Closing 8 / Dr 7 1 128 None [11]
any dr 7 3 0e = Frozen 157 / Dc 7 1
any dr 0 3 0e = Frozen 157
any cr, dc 7, dt eot 0 05, ed 0 ee, ak 0 8 0, ea 0, er = unknown WaitBeforeClose 8
call accept {format} 1024 exp {sum} -, refuse -, normal 01, urgent ee, window 5, disconnect - = no WrongState(WaitBeforeClose) WaitBeforeClose 8

state UserWait 60
do incoming {format} 1024 exp {sum} 0a
any cr, cc 8 7 {format} 1024 {extra} 0d, dr 7 3 0e, dr 0 3 0e, dc 7 = unknown UserWait 60
any dt eot 0 05, ed 0 ee, ak 0 8 0, ea 0, er = unknown UserWait 60
call accept {format} 1024 exp {sum} 0c = AkWait 8 / Accept Options {Format} 1024 true {Sum} false [12] / Cc 8 7 1 {Format} [170] [187] Some 1024 None {extra} None None None [12]{mark}
call refuse 0b = Frozen 157 / Dr 7 0 128 None [11]
call normal 01, urgent ee, window 5, disconnect - = no WrongState(UserWait) UserWait 60

# A unit is queued.
state AkWait 8
do incoming {format} 1024 exp {sum} 0a
do accept {format} 1024 exp {sum} 0c
do normal 01
take cr, cc 8 7 {format} 1024 {extra} 0d, dc 7 = AkWait 8
take dr 7 3 0e = Frozen 157 / Gone Reason 3 [14] / Dc 7 1{mark}
take dr 0 3 0e = Frozen 157 / Gone Reason 3 [14]
take dt eot 0 05 = Opened 8 / Got [5] / Dt 7 true 0 [1]{mark} / Ak 7 1 8 0 None{mark}
take ed 0 ee = Opened 8 / Urgent [238] / Dt 7 true 0 [1]{mark} / Ea 7 0{mark}
take ak 0 8 0, ea 0 = Opened 8 / Dt 7 true 0 [1]{mark}
take er = Closing 8 / Gone Protocol [] / Dr 7 1 133 None []{mark}
any cc 8 9 {format} 1024 {extra} 0d, dr 9 3 0e, dc 9 = unknown AkWait 8
call normal 02, urgent ee = AkWait 8
call disconnect 0b = Closing 8 / Dr 7 1 128 None [11]{mark}
call accept {format} 1024 exp {sum} -, refuse -, window 5 = no WrongState(AkWait) AkWait 8

state Opened 20
do connect {format} 1024 exp {sum} 0a
do tpdu cc 8 7 {format} 1024 {extra} 0d
take cr, dc 7, ak 0 8 0, ea 0 = Opened 20
take cc 8 7 {format} 1024 {extra} 0d = Opened 20 / Ak 7 0 8 0 None{mark}
take dr 7 3 0e = Frozen 157 / Gone Reason 3 [14] / Dc 7 1{mark}
take dt eot 0 05 = Opened 20 / Got [5] / Ak 7 1 8 0 None{mark}
take ed 0 ee = Opened 20 / Urgent [238] / Ea 7 0{mark}
take er = Closing 8 / Gone Protocol [] / Dr 7 1 133 None []{mark}
any cc 8 9 {format} 1024 {extra} 0d, dr 9 3 0e, dr 0 3 0e, dc 9 = unknown Opened 20
call normal 01 = Opened 8 / Dt 7 true 0 [1]{mark}
call urgent ee = Opened 8 / Ed 7 true 0 [238]{mark}
call window 5 = Opened 20 / Window 5 / Ak 7 0 5 1 None{mark}
call disconnect 0b = Closing 8 / Dr 7 1 128 None [11]{mark}
call accept {format} 1024 exp {sum} -, refuse - = no WrongState(Opened) Opened 20

# Expedited data is not agreed.
state Opened 20
do incoming {format} 1024 exp {sum} 0a
do accept {format} 1024 noexp {sum} 0c
do tpdu ak 0 8 0
take ed 0 ee = Closing 8 / Gone Protocol [] / Dr 7 1 133 None []{mark}
call urgent ee = no NoExpedited Opened 20

state Closing 8
do connect {format} 1024 exp {sum} 0a
do tpdu cc 8 7 {format} 1024 {extra} 0d
do disconnect 0b
take dr 7 3 0e, dc 7 = Frozen 157
take cr, cc 8 7 {format} 1024 {extra} 0d, dt eot 0 05, ed 0 ee, ak 0 8 0, ea 0, er = Closing 8
any cc 8 9 {format} 1024 {extra} 0d, dr 9 3 0e, dr 0 3 0e, dc 9 = unknown Closing 8
call accept {format} 1024 exp {sum} -, refuse -, normal 01, urgent ee, window 5, disconnect - = no WrongState(Closing) Closing 8

# Nothing is agreed.
state Closing 8
do connect {format} 1024 exp {sum} 0a
do disconnect 0b
do tpdu cc 8 7 {format} 1024 {extra} 0d
any dr 7 3 0e, dc 7 = Frozen 157
any cr, cc 8 7 {format} 1024 {extra} 0d, dt eot 0 05, ed 0 ee, ak 0 8 0, ea 0, er = Closing 8
any cc 8 9 {format} 1024 {extra} 0d, dr 9 3 0e, dr 0 3 0e, dc 9 = unknown Closing 8

state Frozen 157
do connect {format} 1024 exp {sum} 0a
do tpdu cc 8 7 {format} 1024 {extra} 0d
do tpdu dr 7 3 0e
any cr, cc 8 7 {format} 1024 {extra} 0d, dr 7 3 0e, dr 0 3 0e, dc 7 = unknown Frozen 157
any dt eot 0 05, ed 0 ee, ak 0 8 0, ea 0, er = unknown Frozen 157
call accept {format} 1024 exp {sum} -, refuse -, normal 01, urgent ee, window 5, disconnect - = no WrongState(Frozen) Frozen 157
";

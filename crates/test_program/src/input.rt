//! Input that comes in parts, and reads and writes that fail. What is expected was written by hand.

use osi_base::{MemSink, MemSource, Source, Status};
use osi_commands::osi;
use std::alloc::Global;
use std::process::Abort;
use std::test::Fail;

/// Two end systems on one LAN: seven lines.
const SET_UP: &str = "lan x 1 1497\nes a 490a00\nes b 490b00\nport a x 02000000000a\n\
    port b x 02000000000b\nroute a 490b b x\nroute b 490a a x\n";

/// What stands behind those lines, and the transcript: ends of lines that no text file has, and octets that are no text.
const ENDS: [[&str; 3]; 7] = [
    ["", "start\r\ntick\r\n", "tick 0\ntick 1\ndone\n"],
    ["", "start\ntick", "tick 0\ntick 1\ndone\n"],
    ["", "start\ntick\r", "tick 0\nrefused 2 5 ascii\n"],
    ["", "start\ntick\r\r\n", "tick 0\nrefused 2 5 ascii\n"],
    ["", "\n#\n\r\nstart \ntick\n", "refused 4 7 fields\n"],
    [SET_UP, "es c 490c00\n#\t\n", "refused 9 2 ascii\n"],
    [SET_UP, "es c 490c00\n#\u{e9}\n", "refused 9 2 ascii\n"],
];

/// What stands behind the set-up, and what is shown of it but for the last line: a unit that comes in time and then late, and a connection
/// with a unit and its AK.
const CUT: [[&str; 2]; 2] = [
    [
        "start\nunit a b - - 00\ntick\ndeliver 1 b\ntick\ndeliver 1 b\n",
        "tick 0\nsent a 490b02 00\nframe 1 x a 02000000000b 35\ntick 1\ndeliver 1 b\nunit b 490a02 00\n\
            tick 2\nlate 1 b\n",
    ],
    [
        "tsap b bb\nstart\nconnect a aa b bb normal 1024 exp sum -\ndeliver 1 b\n\
            accept 2 normal 1024 exp sum -\ndeliver 2 a\ndeliver 3 b\ndata 1 68656c6c6f\ndeliver 4 b\n\
            deliver 5 a\n",
        "tick 0\nconnect 1 a 1 490a01 aa 490b01 bb -\nframe 1 x a 02000000000b 63\ndeliver 1 b\n\
            incoming 2 b 1 490a01 1 aa 490b01 bb normal 1024 exp sum -\naccept 2 normal 1024 exp sum -\n\
            frame 2 x b 02000000000a 63\ndeliver 2 a\nconfirm 1 normal 1024 exp sum -\n\
            frame 3 x a 02000000000b 49\ndeliver 3 b\ndata 1 68656c6c6f\nframe 4 x a 02000000000b 54\n\
            deliver 4 b\ngot 2 68656c6c6f\nframe 5 x b 02000000000a 49\ndeliver 5 a\n",
    ],
];

/// How a run ends that reads a script in pieces of this size, and where these reads and writes fail.
fn in_pieces(
    alloc: Global,
    script: &str,
    size: usize,
    reads: &[u32],
    writes: &[u32],
) -> Result<(Status, Vec<u8>), Fail> {
    let sizes = [size].repeat(alloc, 300)?;
    let mut source = MemSource::new(alloc, script.as_bytes(), &sizes, reads)?;
    let mut sink = MemSink::new(alloc, writes)?;
    let words = ["run".to_string(alloc)?];
    let status = osi(alloc, &words, &mut source, &mut sink);
    Ok((status, sink.written().to_vec(alloc)?))
}

/// The script has the transcript, whatever the size of its pieces.
fn expect(rt: &impl Abort, alloc: Global, script: &str, transcript: &str) -> Result<(), Fail> {
    let wanted = match transcript.ends_with("done\n") {
        true => Status::Done,
        false => Status::RefusedLine,
    };
    for size in [1, 20, 4096] {
        let (status, written) = in_pieces(alloc, script, size, &[], &[])?;
        assert_eq!(rt; written.as_slice(), transcript.as_bytes(), "at {script:?}");
        assert_eq!(rt; status, wanted);
    }
    Ok(())
}

/// Ends of lines and other octets, also where a piece ends between them.
#[test]
fn lines_end_alike_however_they_come(rt: HostRuntime) -> Result<(), Fail> {
    for [front, lines, transcript] in ENDS {
        let script = [front, lines].concat(rt.alloc())?;
        expect(&rt, rt.alloc(), &script, transcript)?;
    }
    Ok(())
}

/// Each read and each write of the first ten fails in turn: an answer that comes one call late shows here.
#[test]
fn a_failed_call_ends_the_run(rt: HostRuntime) -> Result<(), Fail> {
    let alloc = rt.alloc();
    let again = "deliver 9 b\n#678901\n".repeat(alloc, 6)?;
    let unknown = "nosuch 9 b\n".repeat(alloc, 6)?;
    for [events, shown] in CUT {
        let script = [[SET_UP, events].concat(alloc)?.as_str(), &again].concat(alloc)?;
        let whole = [shown.to_string(alloc)?.as_str(), &unknown, "done\n"].concat(alloc)?;
        expect(&rt, alloc, &script, &whole)?;
        expect_failures(&rt, alloc, &script, whole.as_bytes())?;
    }
    Ok(())
}

/// The first ten reads and writes of the script fail, each in a run of its own.
fn expect_failures(rt: &impl Abort, alloc: Global, script: &str, whole: &[u8]) -> Result<(), Fail> {
    for call in 1..=10 {
        let (status, written) = in_pieces(alloc, script, 20, &[call], &[])?;
        assert_eq!(rt; status, Status::ReadFault);
        assert!(rt; whole.starts_with(&written));
        let (status, written) = in_pieces(alloc, script, 20, &[], &[call])?;
        assert_eq!(rt; status, Status::WriteFault);
        assert!(rt; whole.starts_with(&written));
    }
    Ok(())
}

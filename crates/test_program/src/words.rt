//! The words of a call: what is written for them, and what they leave unread.

use osi_base::{MemSink, MemSource, PlainSink, PlainSource, Source, Status};
use osi_commands::{osi, run_in_memory};
use std::alloc::Global;
use std::test::Fail;

/// Words that are none of the forms: others, too few and too many, and numbers past their limits or not in their form.
const REFUSED: [&[&str]; 12] = [
    &[],
    &["walk"],
    &["run", "run"],
    &["datagrams", "run"],
    &["inactive", "1"],
    &["storm", "01", "5"],
    &["storm", "1", "20001"],
    &["storm", "1000000000", "5"],
    &["storm", "1", ""],
    &["storm", "1"],
    &["storm", "1", "5", "5"],
    &["storms", "1", "5"],
];

/// The words of generated scripts, and what each writes. The second one is the program's own output, which each run has to give again.
const STORMS: [(&[&str], &str); 2] = [
    (
        &["storm", "1", "0"],
        "storm 1 0 ticks 0 frames 0 ends 0 got 0 urgent 0 gone 0\ndone\n",
    ),
    (
        &["storm", "1", "2000"],
        "storm 1 2000 ticks 206 frames 493 ends 101 got 0 urgent 0 gone 85\ndone\n",
    ),
];

fn words_of(alloc: Global, call: &[&str]) -> Result<Vec<String>, Fail> {
    let mut words = Vec::new(alloc);
    for word in call {
        words.push(word.to_string(alloc)?)?;
    }
    Ok(words)
}

/// The usage line and status 2, and nothing is read.
#[test]
fn other_words_are_refused(rt: HostRuntime) -> Result<(), Fail> {
    let alloc = rt.alloc();
    for call in REFUSED {
        let words = words_of(alloc, call)?;
        let mut source = PlainSource::new(alloc, b"start\n")?;
        let mut sink = PlainSink::new(alloc);
        let status = osi(alloc, &words, &mut source, &mut sink);
        assert_eq!(rt; status, Status::RefusedWords);
        assert_eq!(rt;
            sink.written(),
            b"usage: osi run | frames | decode | storm SEED COUNT | datagrams | inactive | relay\n".as_slice()
        );
        assert_eq!(rt; source.read(&mut [0; 8]), Ok(6));
    }
    Ok(())
}

/// The same words give the same script on each machine and by each compiler.
#[test]
fn generated_scripts_have_their_summaries(rt: HostRuntime) -> Result<(), Fail> {
    for (call, summary) in STORMS {
        let words = words_of(rt.alloc(), call)?;
        let made = run_in_memory(rt.alloc(), &words, b"start\n")?;
        assert_eq!(rt; made.status, Status::Done);
        assert_eq!(rt; made.octets.as_slice(), summary.as_bytes());
    }
    Ok(())
}

/// The input is not read on after a write has failed.
#[test]
fn a_failed_write_ends_a_generated_script(rt: HostRuntime) -> Result<(), Fail> {
    let alloc = rt.alloc();
    let words = words_of(alloc, &["storm", "1", "0"])?;
    let mut source = MemSource::new(alloc, b"start\n", &[1].repeat(alloc, 300)?, &[])?;
    let mut sink = MemSink::new(alloc, &[1])?;
    let status = osi(alloc, &words, &mut source, &mut sink);
    assert_eq!(rt; status, Status::WriteFault);
    assert!(rt; sink.written().is_empty());
    assert_eq!(rt; source.read(&mut [0; 1]), Ok(1));
    Ok(())
}

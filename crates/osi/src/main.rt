//! The program `osi`: networks of OSI end and intermediate systems, run from a script.
#![tactic(auto)]

ghost use Rattle.std.specs.Prelude.{◌≡◌, ◌≢◌, ◌⊎◌, [], drop, map, string_bytes, IfErr, IfOk};
ghost use Rattle.std.specs.IoError.{error_kind};
ghost use Rattle.std.specs.declared.io.ErrorKind.TheVariants.{OutOfMemory};
ghost use Rattle.osi_base.specs.declared.status.Status.TheVariants.{NoMemory, RefusedWords, WriteFault};
ghost use Rattle.osi.specs.Program.{IsCall};

use osi_base::Status;
use osi_commands::osi;
use osi_streams::{ReaderSource, SteadyReader, SteadyWriter, WriterSink};
use std::alloc::Global;
use std::process::ExitCode;
use std::rt::Env;
use std::{env, io};

fn main(rt: HostRuntime) -> ExitCode {
    let ended = answer(rt.alloc(), arguments(&rt), rt.stdin(), rt.stdout());
    ExitCode::from(ended.status.code())
}

/// The arguments of the program, its name among them.
fn arguments(rt: &(impl Env + AllocGlobal)) -> io::Result<Vec<String>> {
    Ok(env::args(rt)?.collect(rt.alloc())?)
}

/// How a call ended, and what it read from and wrote to.
#[derive(Drop)]
struct Ended<R: Drop, W: Drop> {
    status: Status,
    reader: R,
    writer: W,
}

/// Makes the call whose words are the arguments after the first, which is the program's name.
fn answer<R: SteadyReader + Drop, W: SteadyWriter + Drop>(
    alloc: Global,
    arguments: io::Result<Vec<String>>,
    reader: R,
    writer: W,
) -> Ended<R, W>
    ensures made { IfOk arguments (λ all. IsCall (drop 1 (map string_bytes all.items))
        (R.remaining reader) (W.contents writer) (R.remaining result.reader) (W.contents result.writer) result.status) }
    // Memory ran out as they were read: no call is made.
    ensures memory { IfErr arguments (λ error. error_kind error ≡ OutOfMemory
        → (result.status ≡ NoMemory) × (result.reader ≡ reader) × (result.writer ≡ writer)) }
    // An argument that is no text is none of the program's words: the usage line, unless a write or memory fails.
    ensures no_text { IfErr arguments (λ error. error_kind error ≢ OutOfMemory
        → (result.status ≡ RefusedWords) ⊎ (result.status ≡ WriteFault) ⊎ (result.status ≡ NoMemory)) }
    ensures no_text_call { IfErr arguments (λ error. error_kind error ≢ OutOfMemory → IsCall []
        (R.remaining reader) (W.contents writer) (R.remaining result.reader) (W.contents result.writer) result.status) }
{
    match arguments {
        Ok(arguments) => call(alloc, after_name(&arguments), reader, writer),
        Err(error) if error.kind() == io::ErrorKind::OutOfMemory => Ended {
            status: Status::NoMemory,
            reader,
            writer,
        },
        Err(_) => call(alloc, &[], reader, writer),
    }
}

/// The words of the call: the arguments after the program's name.
fn after_name(arguments: &[String]) -> &[String]
    ensures { map string_bytes result.now ≡ drop 1 (map string_bytes arguments.now) }
{
    match arguments {
        [_, words @ ..] => words,
        [] => &[],
    }
}

/// Makes the call over a reader and a writer.
fn call<R: SteadyReader + Drop, W: SteadyWriter + Drop>(
    alloc: Global,
    words: &[String],
    reader: R,
    writer: W,
) -> Ended<R, W>
    ensures made { IsCall (map string_bytes words.now)
        (R.remaining reader) (W.contents writer) (R.remaining result.reader) (W.contents result.writer) result.status }
    // Without words the usage line is written, unless a write or memory fails.
    ensures no_words { map string_bytes words.now ≡ [] → (result.status ≡ RefusedWords) ⊎ (result.status ≡ WriteFault) ⊎ (result.status ≡ NoMemory) }
{
    let mut source = ReaderSource::new(reader);
    let mut sink = WriterSink::new(writer);
    let status = osi(alloc, words, &mut source, &mut sink);
    Ended {
        status,
        reader: source.into_inner(),
        writer: sink.into_inner(),
    }
}

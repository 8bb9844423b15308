//! What `osi` says of every command, written out for each.

ghost use Rattle.std.specs.Prelude.{◌≡◌, ◌⊎◌, ◌+◌, ◌≤◌, true, false, List, ℕ, None, Some, length};
ghost use Rattle.osi_base.specs.declared.status.Status.{Status};
ghost use Rattle.osi_base.specs.declared.status.Status.TheVariants as statuses;
ghost use Rattle.osi_base.specs.Ends.{HasRisen, IsAtEnd, Put, Took};
ghost use Rattle.octet_loop.specs.ByStatus.{IsFailure};
ghost use Rattle.octet_loop.specs.Outcome.{AsksFor as CaptureAsksFor, IsOver, Outcome};
ghost use Rattle.line_loop.specs.Limits.{most_octets, most_read};
ghost use Rattle.line_loop.specs.Outcome.{AsksFor, IsAccepted};
ghost use Rattle.law_run.specs.Bench.{bench_meaning, first_bench};
ghost use Rattle.law_run.specs.Transcript.{IsTranscript};
ghost use Rattle.capture_decode.specs.Course.{capture_course, Finishes, IsAccepted as IsCaptureAccepted, IsPast, IsRefused, Refuses};
ghost use Rattle.capture_decode.specs.declared.cause.Cause.{Cause};
ghost use Rattle.script_frames.specs.Frames.{AsksForCapture, IsFramesRun, frames_meaning};
ghost use Rattle.script_storm.specs.declared.request.Storm.{Storm as StormWords};
ghost use Rattle.osi_commands.specs.Commands.{IsCalled, IsStorm};
ghost use Rattle.law_commands.specs.EachCommand.{Call, Serves, is_decode, is_frames, is_run, kind_of};
ghost use Rattle.osi_kinds.specs.Kinds.{AsksOf, IsAcceptedBy, IsToldBy};
ghost use Rattle.osi_storm.specs.Storm.{AsksSummary, IsStormRun};
ghost use Rattle.osi_commands.specs.declared.command.Command.{Command as Called};
ghost use Rattle.osi_kinds.specs.declared.kinds.Kind.{Kind as Command};

/// `run`: a script in, its transcript out.
pub fn run_does()
    // Of the octets read, what was written is their transcript, as the status says.
    ensures told { (call : Call) → Serves call → is_run call.words ≡ true
        → (read : List ℕ) × (written : List ℕ)
        × Took call.left read call.left_now
        × Put call.held written call.held_now
        × IsTranscript (IsAtEnd call.left_now) read written call.status }
    // What all octets of the source ask for comes, or a failure in its place.
    ensures exact { (call : Call) → Serves call → is_run call.words ≡ true
        → (all text : List ℕ) (asked : Status) → call.left ≡ Some all → AsksFor bench_meaning first_bench all text asked
        → ((call.status ≡ asked) × Put call.held text call.held_now) ⊎ IsFailure call.status }
    // A script with no refused line and no limit passed is Done, unless memory runs out, where neither
    // count of faults rises or stands at its last value.
    ensures complete { (call : Call) → Serves call → is_run call.words ≡ true
        → (all : List ℕ) → call.left ≡ Some all → IsAccepted bench_meaning first_bench all
        → ¬ HasRisen call.reads call.reads_now → ¬ HasRisen call.writes call.writes_now
        → ((call.status ≡ statuses.Done) × (text : List ℕ) × AsksFor bench_meaning first_bench all text statuses.Done × Put call.held text call.held_now)
        ⊎ (call.status ≡ statuses.NoMemory) }
{}

/// `frames`: a script in, the capture of its frames out.
pub fn frames_does()
    // Of the octets read, what was written is the capture of the frames that their lines make, as the status says.
    ensures told { (call : Call) → Serves call → is_frames call.words ≡ true
        → (read : List ℕ) × (written : List ℕ)
        × Took call.left read call.left_now
        × Put call.held written call.held_now
        × IsFramesRun (IsAtEnd call.left_now) read written call.status }
    // The capture that all octets of the source ask for comes, or a failure in its place.
    ensures exact { (call : Call) → Serves call → is_frames call.words ≡ true
        → (all capture : List ℕ) (asked : Status) → call.left ≡ Some all → AsksForCapture all capture asked
        → ((call.status ≡ asked) × Put call.held capture call.held_now) ⊎ IsFailure call.status }
    // A script with no refused line and no limit passed is Done, unless memory runs out, where neither count of faults rises
    // or stands at its last value.
    ensures complete { (call : Call) → Serves call → is_frames call.words ≡ true
        → (all : List ℕ) → call.left ≡ Some all → IsAccepted frames_meaning first_bench all
        → ¬ HasRisen call.reads call.reads_now → ¬ HasRisen call.writes call.writes_now
        → ((call.status ≡ statuses.Done) × (capture : List ℕ) × AsksForCapture all capture statuses.Done × Put call.held capture call.held_now)
        ⊎ (call.status ≡ statuses.NoMemory) }
{}

/// `storm SEED COUNT`: the summary of a generated script out.
pub fn storm_does()
    // Nothing is read, and what was written is the summary, as the status says; whatever front of its lines ran, its journal is lawful.
    ensures told { (call : Call) → Serves call → (storm : StormWords) → IsStorm call.words storm
        → (call.left_now ≡ call.left) × (written : List ℕ) × Put call.held written call.held_now
        × IsStormRun storm written call.status }
    // What the generated script asks for comes, or a failure in its place.
    ensures exact { (call : Call) → Serves call → (storm : StormWords) → IsStorm call.words storm
        → (text : List ℕ) (asked : Status) → AsksSummary storm text asked
        → ((call.status ≡ asked) × Put call.held text call.held_now) ⊎ IsFailure call.status }
    // Where the count of faults of the sink does not rise and does not stand at its last value, a generated script ends, or one of its
    // lines fills the journal, unless memory runs out.
    ensures complete { (call : Call) → Serves call → (storm : StormWords) → IsStorm call.words storm
        → ¬ HasRisen call.writes call.writes_now
        → ((text : List ℕ) × AsksSummary storm text call.status × Put call.held text call.held_now)
        ⊎ (call.status ≡ statuses.NoMemory) }
{}

/// `decode`: a capture in, the lines of its records out.
pub fn decode_does()
    // Of the octets of a capture that were read, what was written is told as the status says.
    ensures told { (call : Call) → Serves call → is_decode call.words ≡ true
        → (read : List ℕ) × (written : List ℕ)
        × Took call.left read call.left_now
        × Put call.held written call.held_now
        × Outcome capture_course (IsAtEnd call.left_now) read written call.status
        × (length read ≤ most_octets + most_read) }
    // What all octets of the source ask for as a capture comes, or a failure in its place.
    ensures exact { (call : Call) → Serves call → is_decode call.words ≡ true
        → (all text : List ℕ) (asked : Status) → call.left ≡ Some all → CaptureAsksFor capture_course all text asked
        → ((call.status ≡ asked) × Put call.held text call.held_now) ⊎ IsFailure call.status }
    // A capture without a fault within the limit is Done, unless memory runs out, where neither count of faults rises
    // or stands at its last value.
    ensures complete { (call : Call) → Serves call → is_decode call.words ≡ true
        → (all : List ℕ) → call.left ≡ Some all → IsCaptureAccepted all
        → ¬ HasRisen call.reads call.reads_now → ¬ HasRisen call.writes call.writes_now
        → ((call.status ≡ statuses.Done) × (text : List ℕ) × Finishes all text × Put call.held text call.held_now)
        ⊎ (call.status ≡ statuses.NoMemory) }
    // Where a fault of the capture shows within the limit, it is refused for it, or a failure comes in its place.
    ensures refused { (call : Call) → Serves call → is_decode call.words ≡ true
        → (all : List ℕ) (offset : ℕ) (cause : Cause) → call.left ≡ Some all → IsRefused all offset cause
        → ((call.status ≡ statuses.RefusedCapture) × (text : List ℕ) × Refuses all text offset cause × Put call.held text call.held_now)
        ⊎ IsFailure call.status }
    // Where octet 16,777,217 of the capture comes before a fault shows, it is too much, or a failure comes in its place.
    ensures past { (call : Call) → Serves call → is_decode call.words ≡ true
        → (all : List ℕ) → call.left ≡ Some all → IsPast all
        → ((call.status ≡ statuses.TooMuch) × (text : List ℕ) × IsOver capture_course all text × Put call.held text call.held_now)
        ⊎ IsFailure call.status }
{
    capture_show::one_show();
}

/// `datagrams`, `inactive` and `relay`: a script in, its transcript out.
pub fn scripts_do()
    // Of the octets of a script that were read by another command, what was written is told as the status says.
    ensures told { (call : Call) → Serves call → (kind : Command) → kind_of call.words ≡ Some kind
        → (read : List ℕ) × (written : List ℕ)
        × Took call.left read call.left_now
        × Put call.held written call.held_now
        × IsToldBy kind (IsAtEnd call.left_now) read written call.status }
    // What all octets of the source ask for comes, or a failure in its place.
    ensures exact { (call : Call) → Serves call → (kind : Command) → kind_of call.words ≡ Some kind
        → (all text : List ℕ) (asked : Status) → call.left ≡ Some all → AsksOf kind all text asked
        → ((call.status ≡ asked) × Put call.held text call.held_now) ⊎ IsFailure call.status }
    // A script with no refused line and no limit passed is Done, unless memory runs out, where neither
    // count of faults rises or stands at its last value.
    ensures complete { (call : Call) → Serves call → (kind : Command) → kind_of call.words ≡ Some kind
        → (all : List ℕ) → call.left ≡ Some all → IsAcceptedBy kind all
        → ¬ HasRisen call.reads call.reads_now → ¬ HasRisen call.writes call.writes_now
        → ((call.status ≡ statuses.Done) × (text : List ℕ) × AsksOf kind all text statuses.Done × Put call.held text call.held_now)
        ⊎ (call.status ≡ statuses.NoMemory) }
{}

/// Words that are none of these ask for no command.
pub fn other_words()
    ensures { (words : List (List ℕ)) → is_run words ≡ false → is_frames words ≡ false → is_decode words ≡ false
        → kind_of words ≡ None → ((storm : StormWords) → IsStorm words storm → ⊥)
        → (command : Called) → IsCalled words command → ⊥ }
{}

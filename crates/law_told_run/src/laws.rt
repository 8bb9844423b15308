//! What a reader of a transcript of `run` may conclude from its text.

ghost use Rattle.law_told_run.specs.Laws.{
  EventsTellRightly,
  HasOneReading,
  IsReadBack,
  LinesAreAsked,
  ReadsLawfully,
  TellsItsEvents,
};

/// With the names of the script a transcript tells its events, however far the script was run: the events that can be read from it are
/// those of the run, and so they are lawful where no strays are told; and two runs with the same names and the same text have the same
/// events.
pub fn transcripts_tell_their_events()
    ensures tells { TellsItsEvents }
    ensures reads { IsReadBack }
    ensures lawful { ReadsLawfully }
    ensures one { HasOneReading }
{
    law_run::ends_are_lawful();
    script_journal::shown_is_next();
}

/// Each line that asks for a connection, or hands over a unit, has its own event or is refused; and where no strays are told, each
/// event by which a user is told something tells what a partner asked before.
pub fn lines_and_events()
    ensures asked { LinesAreAsked }
    ensures told { EventsTellRightly }
{
    law_run::ends_are_lawful();
    script_journal::shown_is_next();
}

//! What holds of journals and their texts.

ghost use Rattle.std.specs.Prelude.{◌≡◌, ◌++◌, ℕ, List};
ghost use Rattle.script_lines.specs.Tags.{Tags, AreNames};
ghost use Rattle.script_journal.specs.Told.{journal_text};
ghost use Rattle.script_journal.specs.Injective.{EachTold};
ghost use Rattle.script_journal.specs.Lawful.{Lawful};
ghost use Rattle.script_journal.specs.Partner.{ArePartners};
ghost use Rattle.script_journal.specs.RawLawful.{RawLawful};
ghost use Rattle.script_journal.specs.Showing.{EachTellsRightly};
ghost use Rattle.script_journal.specs.declared.event.Event.{Event};

/// For given names no two lists of events have one text.
pub fn text_is_injective()
    ensures { (tags : Tags) (first second : List Event) → AreNames tags.systems → AreNames tags.lans → EachTold tags first → EachTold tags second
        → journal_text tags first ≡ journal_text tags second → first ≡ second }
{}

/// Each front of a lawful journal is lawful.
pub fn fronts_are_lawful()
    ensures lawful { (frozen : ℕ) (titles : List (List ℕ)) (front back : List Event) → Lawful frozen titles (front ++ back) → Lawful frozen titles front }
    ensures raw { (life : ℕ) (titles : List (List ℕ)) (front back : List Event) → RawLawful life titles (front ++ back) → RawLawful life titles front }
{}

/// In a lawful journal an end has one partner end at most.
pub fn one_partner()
    ensures { (frozen : ℕ) (titles : List (List ℕ)) (journal : List Event) (end one other : ℕ) → Lawful frozen titles journal → ArePartners journal end one → ArePartners journal end other
        → one ≡ other }
{}

/// In a lawful journal each unit that an end shows is the next one, of its mark, of those that its partner was asked to send before; and a
/// connect indication says what the latest request before it, with its calling address and reference, says.
pub fn shown_is_next()
    ensures { (frozen : ℕ) (titles : List (List ℕ)) (journal : List Event) → Lawful frozen titles journal → EachTellsRightly titles journal }
{}

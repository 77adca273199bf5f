//! What holds of all journals.
ghost use Rattle.std.specs.Prelude.{◌≡◌, List};
ghost use Rattle.std.specs.List.{AllByRecursion};
ghost use Rattle.mely_history.specs.declared.entry.Entry.{Entry as EntryValue};
ghost use Rattle.mely_journal.specs.Journal.{AreSmall, journal};

/// A printed journal has one list of histories, as numbers have 64 bits at most.
pub fn a_journal_has_one_list_of_histories()
    ensures { (one other : List (List EntryValue)) → AllByRecursion AreSmall one
        → AllByRecursion AreSmall other → journal one ≡ journal other → one ≡ other }
{}

//! What is true of the definitions that the contracts cite.
ghost use Rattle.a429_import.specs.ImportExamples.{ChoosesNames, FillsFields, MakesNames, PassesNotes, ReadsAbove, ReadsAlone, ReadsFields, ReadsBlanks, ReadsHeadings, ReadsIntervals, ReadsMaps, ReadsMillis, ReadsQuotes, TellsApart};
ghost use Rattle.a429_import.specs.ImportedRows.{RowsAreInRecord};
ghost use Rattle.a429_import.specs.Renamed.{NamesAreApart};

/// The record of the table has what each imported row says: a source with its name, label and SDI, whose receiver has the
/// row's name and filters. For a row that names a group it has a group with that name and the row's bit rate. That group
/// has an output of the source, with the row's interval and hold.
pub fn imported_rows_are_in_record()
    ensures { RowsAreInRecord }
{}

/// The definitions, by examples: fields, blanks round them, intervals, headings, rows with and without a group, made names,
/// wrong quotes, rows above the heading, notes and fields that are filled.
pub fn forms_are_read_as_written()
    ensures fields { ReadsFields }
    ensures millis { ReadsMillis }
    ensures intervals { ReadsIntervals }
    ensures blanks { ReadsBlanks }
    ensures headings { ReadsHeadings }
    ensures maps { ReadsMaps }
    ensures alone { ReadsAlone }
    ensures names { MakesNames }
    ensures apart { TellsApart }
    ensures chosen { ChoosesNames }
    ensures quotes { ReadsQuotes }
    ensures above { ReadsAbove }
    ensures notes { PassesNotes }
    ensures filled { FillsFields }
{}

/// No two texts of a column become one name: a name that is not empty is that of one text alone. The column has at most as
/// many texts as a table can have sources.
pub fn names_are_apart()
    ensures { NamesAreApart }
{}

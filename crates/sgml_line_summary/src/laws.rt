// Laws of summaries.
ghost use Rattle.sgml_line_summary.specs.Laws.{OneSummary, EachFileIsSummarized, BadLineBeginsItsLine};

/// A law: a file has one answer.
pub fn one_summary()
    ensures { OneSummary }
{}

/// A law: what a store has under a name, or that it has nothing there, has an answer.
pub fn each_file_is_summarized()
    ensures { EachFileIsSummarized }
{}

/// A law: the place of a bad line is in the line of its number, in column 1.
pub fn bad_line_begins_its_line()
    ensures { BadLineBeginsItsLine }
{}

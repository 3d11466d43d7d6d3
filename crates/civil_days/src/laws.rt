// Laws about the definitions. The function does nothing: its contract is the law.
ghost use Rattle.civil_days.specs.Typed.{ShownReadsBack};

/// Each number of a column of dates or timestamps reads back from the text that is printed for it.
pub fn shown_reads_back()
    ensures { ShownReadsBack }
{}

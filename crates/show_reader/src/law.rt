ghost use Rattle.show_reader.specs.Shows.{OneShowLaw};
ghost use Rattle.show_reader.specs.Reading.{LimitsLaw};

/// A desk with more room reads each text that one with less room accepted, to the same show, which
/// has nothing beyond the smaller room. It does nothing: its contract is the law.
pub fn limits_law()
    ensures { LimitsLaw }
{}

/// Statements mean one show: two shows whose look-ups are those that the statements give are equal.
/// It does nothing: its contract is the law.
pub fn one_show_law()
    ensures { OneShowLaw }
{}

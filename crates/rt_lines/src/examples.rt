//! Lines that the prover computes.
ghost use Rattle.rt_lines.specs.laws.Examples.{CallsAreMade, CallsAreRefused, FirstWordIsRefused};
ghost use Rattle.rt_lines.specs.laws.Examples.{FormsComeFirst, LinesAreRead, TextsArePrinted};

/// What lines ask for.
pub fn lines_are_read()
    ensures { LinesAreRead }
{}

/// What has none of the forms is a bad line, whatever else is wrong with its words.
pub fn forms_come_first()
    ensures { FormsComeFirst }
{}

/// A line is refused by the first of its words that is.
pub fn first_word_is_refused()
    ensures { FirstWordIsRefused }
{}

/// A listen's calls make its query.
pub fn calls_are_made()
    ensures { CallsAreMade }
{}

/// The calls that a query refuses, and words of a call, which come before the query.
pub fn calls_are_refused()
    ensures { CallsAreRefused }
{}

/// What is printed.
pub fn texts_are_printed()
    ensures { TextsArePrinted }
{}

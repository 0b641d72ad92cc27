// Worked rows.
ghost use Rattle.rt_hub.specs.laws.Examples.{BytesCount, BytesEnd, NumbersCount, StaysOver, TextsEnd, TextsWait};
ghost use Rattle.rt_hub.specs.laws.Refusals.{OthersAreNotAnswered, RefusalsSayWhy};

/// Texts wait in order, up to the bounds and no further; a line that is over stays so. The bytes that wait
/// are counted.
pub fn line_examples()
    ensures wait { TextsWait }
    ensures texts_end { TextsEnd }
    ensures bytes_end { BytesEnd }
    ensures over { StaysOver }
    ensures numbers { NumbersCount }
    ensures counted { BytesCount }
{}

/// A request that can't be taken is refused with what is wrong and where: its path before its value, the
/// names of entries before their values.
pub fn refusals_say_why()
    ensures { RefusalsSayWhy }
{}

/// What is no request, or has no number that can be read, has no answer.
pub fn others_are_not_answered()
    ensures { OthersAreNotAnswered }
{}

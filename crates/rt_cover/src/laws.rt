// The laws of the cover.
ghost use Rattle.rt_cover.specs.laws.Apart.{PlainsStandApart, NeededStandApart, KeptStandApart};
ghost use Rattle.rt_cover.specs.laws.KeptListens.{KeptHaveForms, NeededStay, TagsStayApart};
ghost use Rattle.rt_cover.specs.laws.Needed.{SuppliesItself, SuppliesOnward, SuppliesOneWay, NeededAreFewest};
ghost use Rattle.rt_cover.specs.laws.Runs.{EveryRunIsSound};
ghost use Rattle.rt_cover.specs.laws.Examples.{CoverChanges, RevokedOnce, NoTagLeft, RangesAreShared};
ghost use Rattle.rt_cover.specs.laws.Examples.{WiderTakesOver, LesserTagSupplies};

/// The three facts of supply on which the fewest listens stand.
pub fn supply_law()
    ensures itself { SuppliesItself }
    ensures onward { SuppliesOnward }
    ensures one_way { SuppliesOneWay }
{}

/// Of any forms the needed ones are the fewest that supply all.
pub fn needed_law()
    ensures { NeededAreFewest }
{}

/// The listens kept for some forms have just these forms; one whose form was kept stays as it is,
/// and no tag is given twice.
pub fn kept_law()
    ensures forms { KeptHaveForms }
    ensures stay { NeededStay }
    ensures tags { TagsStayApart }
{}

/// Of the plain queries among needed forms, and among the listens kept for them, none is at or above
/// another.
pub fn apart_law()
    ensures plains { PlainsStandApart }
    ensures needed { NeededStandApart }
    ensures kept { KeptStandApart }
{}

/// After any changes of a new cover, of which refused ones change nothing, the listens are the
/// fewest, each certified, and the tags that were given are 1, 2, 3 and so on.
pub fn run_law()
    ensures { EveryRunIsSound }
{}

// ---- outside examples, which the prover computes

/// A listen at a parent takes over from those below it and gives back; a tag is revoked once; two
/// tags do not do for three listens.
pub fn change_examples()
    ensures changes { CoverChanges }
    ensures once { RevokedOnce }
    ensures last { NoTagLeft }
{}

/// Two ranges supply a third; a wider one takes over from one with a limit and gives it back; of two
/// that supply a query the lesser tag is told.
pub fn range_examples()
    ensures shared { RangesAreShared }
    ensures wider { WiderTakesOver }
    ensures lesser { LesserTagSupplies }
{}

// Laws of heights and lacks.
ghost use Rattle.grammar_limits.specs.Laws.{TellsHeights, TellsLacks};

/// The search over the acts of a program tells the place of its first item that is too high, and none where each item fits.
#[tactic(auto, using(crate::proofs::Items::tells_heights))]
pub fn tells_heights()
    ensures { TellsHeights }
{}

/// The search over the acts of a program tells its first lack, and none where it has none.
#[tactic(auto, using(crate::proofs::FirstLacks::tells_lacks))]
pub fn tells_lacks()
    ensures { TellsLacks }
{}

// The laws of banks, as a contract: it is proved, so they hold.
ghost use Rattle.banks.specs.Laws.{FourEach, SignedNumbers, EveryNumber, ReadBack, NothingElse, FirstZeros};

// Does nothing; what it ensures are the laws.
pub fn bank_laws_stand()
    ensures four { FourEach }
    ensures signed { SignedNumbers }
    ensures every { EveryNumber }
    ensures back { ReadBack }
    ensures all { NothingElse }
    ensures zeros { FirstZeros }
{}

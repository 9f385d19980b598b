ghost use Rattle.sets.specs.Laws.{Laws};

// The laws of sets: the contract is the theorem.
pub fn set_laws()
    ensures { Laws }
{}

ghost use Rattle.rules.specs.Laws.{Laws};

// The law of the path test: the contract is the theorem.
pub fn rule_laws()
    ensures { Laws }
{}

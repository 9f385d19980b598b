ghost use Rattle.members.specs.Laws.{Laws};

// The laws of members: the contract is the theorem.
pub fn members_laws()
    ensures { Laws }
{}

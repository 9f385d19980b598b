ghost use Rattle.profile.specs.Laws.{Laws};

// The laws of orienting a link: the contract is the theorem.
pub fn profile_laws()
    ensures { Laws }
{}

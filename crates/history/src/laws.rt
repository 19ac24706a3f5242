// Laws about the definitions: each is the contract of a function that does nothing.
ghost use Rattle.history.specs.Example.{Example};

// The worked history.
#[tactic(auto, using(crate::proofs::Worked::example))]
pub fn example_stands()
    ensures { Example }
{}

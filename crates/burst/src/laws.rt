// Laws about the definitions: each is the contract of a function that does nothing.
ghost use Rattle.burst.specs.Edges.{Edges};

// The worked edges of the rules.
pub fn edges_stand()
    ensures { Edges }
{}

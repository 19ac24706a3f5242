// Laws about the definitions: each is the contract of a function that does nothing.
ghost use Rattle.bench.specs.Example.{WholeCase};

// A script of four acts has the report of four lines that is written beside it.
pub fn whole_case_stands()
    ensures { WholeCase }
{}

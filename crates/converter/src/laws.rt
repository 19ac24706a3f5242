// Laws about the definitions: each is the contract of a function that does nothing.
ghost use Rattle.converter.specs.Laws.{PiecesLie};

// The pieces of a beat, of any burst over any bus: they cover its bytes once and in order, and no slave refuses one.
pub fn pieces_lie()
    ensures { PiecesLie }
{}

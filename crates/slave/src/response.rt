// How a beat went.
ghost use Rattle.slave.specs.Lanes.{rank};
ghost use Rattle.slave.specs.Lanes.{worse as worse_of};
ghost use Rattle.std.specs.Prelude.{◌≡◌};

// How a beat went, by its number on the bus; a larger one is worse.
#[derive(Clone, Copy, PartialEq, Eq, PartialOrd, Ord, Debug)]
pub enum Response {
    Okay = 0,
    SlvErr = 2,
    DecErr = 3,
}

impl Response {
    // The number of the response on the bus.
    pub fn code(self) -> u8
        ensures { result ≡ rank self }
    {
        self as u8
    }

    // The worse of two responses.
    pub fn worse(self, other: Response) -> Response
        ensures { result ≡ worse_of self other }
    {
        self.max(other)
    }
}

// What a give answers.
ghost use Rattle.slave.specs.Acts.{given_response, given_left};
ghost use Rattle.std.specs.Prelude.{◌≡◌};

use crate::response::Response;

// The beats left, or after the last one the worst response. No `Option` and no `Result`: each case is a full answer, and
// neither is an absence or a failure.
#[derive(Clone, Copy, PartialEq, Eq, Debug)]
pub enum Given {
    More(u16),
    Done(Response),
}

impl Given {
    // The response that the beat adds to what holds it: OKAY while beats are left, since only the last one answers.
    pub fn response(self) -> Response
        ensures { result ≡ given_response self }
    {
        match self {
            Given::More(_) => Response::Okay,
            Given::Done(response) => response,
        }
    }

    // The beats left.
    pub fn left(self) -> u16
        ensures { result ≡ given_left self }
    {
        match self {
            Given::More(left) => left,
            Given::Done(_) => 0,
        }
    }
}

// The waiting requests of one channel, in order of acceptance.
ghost use Rattle.std.specs.Prelude.{◌≤◌, ◌≡◌, ◌<◌, false, [], map, length, is_ok, IfSome, IfOk, vec_len, vec_capacity};
ghost use Rattle.std.specs.List.{remove};
ghost use Rattle.fabric.specs.Rows.{older};

use crate::picking::pick;
use crate::row::Row;
use crate::types::{FabricFault, Request};
use std::alloc::{AllocError, Global};

// How many requests wait in a channel at most.
pub(crate) const MOST_WAITING: usize = 16;

// At most sixteen rows, with room for them from the making on: so a push wants no memory, and no request is refused
// for want of any. Both facts are ghost fields, which each holder of a fabric knows: with an `impl Model` two lists
// of the same rows would be one value, and a refused call could not be said to leave the room of its lists too.
#[derive(Drop)]
pub struct Waiting {
    rows: Vec<Row>,
    ghost few: { vec_len rows ≤ 16 },
    ghost room: { 16 ≤ vec_capacity rows },
}

// Every row gets one more age.
fn age_all(rows: &mut [Row])
    ensures { rows.new ≡ map older rows.old }
{
    for row in rows {
        row.grow();
    }
}

impl Waiting {
    ghost use Rattle.fabric.specs.Picking.{choice, ByRule};
    ghost use Rattle.fabric.specs.Rows.{row_at};
    ghost use Rattle.fabric.specs.Waits.{rows_of, room_answer, rows_with};

    // An empty list with room for all that may ever wait.
    pub(crate) fn new(heap: Global) -> Result<Waiting, AllocError>
        ensures { IfOk result (λ w. rows_of w ≡ []) }
    {
        let rows = Vec::with_capacity(heap, MOST_WAITING)?;
        Ok(Waiting { rows })
    }

    // Adds a request of age 0 at the end; refused exactly where sixteen wait.
    pub(crate) fn push(&mut self, request: Request) -> Result<(), FabricFault>
        ensures answer { result ≡ room_answer (rows_of self.old) }
        ensures after { rows_of self.new ≡ rows_with request (rows_of self.old) }
        ensures refused { is_ok result ≡ false → self.new ≡ self.old }
    {
        if self.rows.len() >= MOST_WAITING {
            return Err(FabricFault::Full);
        }
        self.rows.push_reserved(Row { request, age: 0 });
        Ok(())
    }

    // The number of the row that a grant picks, if any waits.
    pub(crate) fn pick(&self) -> Option<usize>
        ensures exact { result ≡ choice (rows_of self.now) }
        ensures rule { ByRule (rows_of self.now) }
        ensures inside { IfSome result (λ k. k < length (rows_of self.now)) }
    {
        pick(&self.rows)
    }

    // The request of a row.
    pub(crate) fn request(&self, i: usize) -> Request
        requires { i < length (rows_of self.now) }
        ensures { result ≡ (row_at (rows_of self.now) i).request }
    {
        self.rows[i].request
    }

    // Takes a row out; every row still waiting gets one more age.
    pub(crate) fn take_out(&mut self, i: usize)
        requires { i < length (rows_of self.old) }
        ensures { rows_of self.new ≡ map older (remove (rows_of self.old) i) }
    {
        self.rows.remove(i);
        age_all(&mut self.rows);
    }

    // Lets all waiting requests go.
    pub(crate) fn clear(&mut self)
        ensures { rows_of self.new ≡ [] }
    {
        self.rows.clear();
    }
}

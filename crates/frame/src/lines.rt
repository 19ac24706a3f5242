// The lines of the program.
ghost use Rattle.std.specs.Prelude.{◌≡◌, ◌++◌, ◌<◌, ◌^◌, length, IfOk, OnOk};
ghost use Rattle.report.specs.Lines.{line};
ghost use Rattle.report.specs.Outcomes.{outcome_told};
ghost use Rattle.frame.specs.Lines.{lines_from};

use fabric::Outcome;
use report::{LINE_BYTES, Refusal};
use std::alloc::{AllocError, Global};

// Adds the line of an act's outcome.
fn add_line(bytes: &mut Vec<u8>, number: u32, outcome: Outcome) -> Result<(), AllocError>
    ensures { OnOk result (bytes.new.items ≡ bytes.old.items ++ line number (outcome_told outcome)) }
{
    let mut line = [0u8; LINE_BYTES];
    let length = report::write_line(&mut line, number, outcome.map_err(Refusal::from)).unwrap();
    bytes.extend_from_slice(&line[..length])
}

// The lines of all outcomes, one after the other.
pub(crate) fn lines(heap: Global, outcomes: &[Outcome]) -> Result<Vec<u8>, AllocError>
    requires { length outcomes.now < 2 ^ 32 }
    ensures { IfOk result (λ v. v.items ≡ lines_from 1 outcomes.now) }
{
    let mut bytes = Vec::new(heap);
    let mut number = 0;
    for outcome in outcomes {
        number += 1;
        add_line(&mut bytes, number, *outcome)?;
    }
    Ok(bytes)
}

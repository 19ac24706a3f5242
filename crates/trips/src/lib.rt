// What goes down by each adapter, call by call, seen by a recorder over memory.
#![tactic(auto)]

#[cfg(test)]
mod held;
#[cfg(test)]
mod pieces;
#[cfg(test)]
mod runs;
mod trace;

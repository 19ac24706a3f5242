// Acts one by one, and whole runs. Each call is lent the slave beside the fabric: their holder keeps both, and may look
// at the slave between two acts.
ghost use Rattle.std.specs.Prelude.{◌≡◌, ◌≤◌, false, [], length, is_ok, OnOk};
ghost use Rattle.fabric.specs.Channels.{channels_of};
ghost use Rattle.slave.specs.Meaning.{board};
ghost use Rattle.history.specs.Runs.{Performed, begin_answer, run_answer, run_number};
ghost use Rattle.history.specs.Tracks.{Extends, Tracks, act_answer, act_after, act_slave};

use fabric::{Act, Fabric, Outcome};
use slave::Slave;

// Why a run does not begin.
#[derive(Clone, Copy, PartialEq, Eq, Debug)]
pub enum RunFault {
    // the slave is dead, not idle, not full or not of width 8
    Below = 18,
    // there is less room for answers than there are acts
    Short = 22,
}

impl RunFault {
    // The number of the refusal.
    pub fn number(self) -> u8
        ensures { result ≡ run_number self }
    {
        self as u8
    }
}

// Begins a run: empties the fabric over a live, idle and full slave of width 8.
#[tactic(auto, using(crate::proofs::Running::begins))]
pub fn begin<S: Slave>(fabric: &mut Fabric, slave: &S) -> Result<(), RunFault>
    ensures answer { result ≡ begin_answer (S.Slave.meaning slave.now) }
    ensures run { OnOk result (Tracks (board (S.Slave.meaning slave.now)) [] (channels_of fabric.new) (S.Slave.meaning slave.now)) }
    ensures refused { is_ok result ≡ false → fabric.new ≡ fabric.old }
{
    fabric.create(slave).map_err(|_| RunFault::Below)
}

// One act on a fabric and its slave. In a run it has the answer that is owed to it after what came before, and the run goes on.
#[tactic(auto, using(crate::proofs::Acting::goes_on))]
pub fn act<S: Slave>(fabric: &mut Fabric, slave: &mut S, act: Act) -> Outcome
    ensures answer { result ≡ act_answer (channels_of fabric.old) (S.Slave.meaning slave.old) act }
    ensures after { channels_of fabric.new ≡ act_after (channels_of fabric.old) (S.Slave.meaning slave.old) act }
    ensures slave { S.Slave.meaning slave.new ≡ act_slave (channels_of fabric.old) (S.Slave.meaning slave.old) act }
    ensures run { Extends (channels_of fabric.old) (S.Slave.meaning slave.old) act result (channels_of fabric.new) (S.Slave.meaning slave.new) }
    ensures refused { is_ok result ≡ false → (fabric.new ≡ fabric.old) × (slave.new ≡ slave.old) }
{
    match act {
        Act::Request(channel, request) => fabric.request(channel, request),
        Act::Grant(channel) => fabric.grant(slave, channel),
        Act::Put {
            master,
            word,
            strobe,
            last,
        } => fabric.put(slave, master, word, strobe, last),
        Act::Take => fabric.take(slave),
    }
}

// Performs every act of a run that has begun, and writes its answer.
fn perform<S: Slave>(fabric: &mut Fabric, slave: &mut S, acts: &[Act], answers: &mut [Outcome])
    requires room { length acts.now ≤ length answers.old }
    requires run { Tracks (board (S.Slave.meaning slave.old)) [] (channels_of fabric.old) (S.Slave.meaning slave.old) }
    ensures { Performed (board (S.Slave.meaning slave.old)) acts.now answers.old answers.new (channels_of fabric.new) (S.Slave.meaning slave.new) }
{
    // by index: after `answers.iter_mut().zip(acts)` a proof knows how many answers there are, and not which
    for (i, next) in acts.iter().enumerate() {
        answers[i] = act(fabric, slave, *next);
    }
}

// Creates the fabric over the slave, performs every act in turn, and writes each act's answer. It wants no memory.
pub fn run<S: Slave>(
    fabric: &mut Fabric,
    slave: &mut S,
    acts: &[Act],
    answers: &mut [Outcome],
) -> Result<(), RunFault>
    ensures answer { result ≡ run_answer (length acts.now) (length answers.old) (S.Slave.meaning slave.old) }
    ensures performed { OnOk result (Performed (board (S.Slave.meaning slave.old)) acts.now answers.old answers.new (channels_of fabric.new) (S.Slave.meaning slave.new)) }
    ensures refused { is_ok result ≡ false → (fabric.new ≡ fabric.old) × (slave.new ≡ slave.old) × (answers.new ≡ answers.old) }
{
    if answers.len() < acts.len() {
        return Err(RunFault::Short);
    }
    begin(fabric, slave)?;
    perform(fabric, slave, acts, answers);
    Ok(())
}

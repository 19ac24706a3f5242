// A beat, sent down to a slave or fetched from it piece by piece.
ghost use Rattle.std.specs.Prelude.{◌≡◌, true, false};
ghost use Rattle.burst.specs.Rules.{width_bytes};
ghost use Rattle.converter.specs.Sent.{moved_word, cut_strobe, got_of, sent_piece, sent_beat, fetched_piece, fetched_beat};
ghost use Rattle.slave.specs.declared.response.Response.TheVariants.{Okay};
ghost use Rattle.slave.specs.Acts.{on_ok, given_response};
ghost use Rattle.slave.specs.Lanes.{stray, read_word, read_worst, write_worst, written};
ghost use Rattle.slave.specs.Making.{ready};
ghost use Rattle.slave.specs.Meaning.{board, idle, with_write};

use crate::beat::BusBeat;
use crate::lanes::Move;
use burst::Width;
use slave::{Channel, Given, Response, Slave, SlaveFault};

// The response of a last beat that was taken.
fn done(answer: Result<Given, SlaveFault>) -> Response
    ensures { result ≡ on_ok answer Okay given_response }
{
    answer.map_or(Response::Okay, |given| given.response())
}

// The word and the response of a beat that was read.
fn got(answer: Result<(u64, Response, u16), SlaveFault>) -> (u64, Response)
    ensures { result ≡ got_of answer }
{
    answer.map_or((0, Response::Okay), |(word, response, _)| (word, response))
}

// Sends a piece of a write beat on the bus `own` down. A ready slave refuses no piece.
// A word and its strobe stay two arguments here, as the two of a give are.
fn send_piece<S: Slave>(
    below: &mut S,
    piece: BusBeat,
    own: Width,
    word: u64,
    strobe: u8,
) -> Response
    requires ready { ready (S.Slave.meaning below.old) ≡ true }
    requires bus { width_bytes piece.bus ≡ (S.Slave.meaning below.old).width }
    ensures worst { result
        ≡ write_worst (board (S.Slave.meaning below.old)) (width_bytes piece.bus) piece.cover
        (cut_strobe (width_bytes own) (width_bytes piece.bus) strobe
        piece.cover.first piece.cover.last) }
    ensures after { S.Slave.meaning below.new ≡ with_write idle Okay
        (written (board (S.Slave.meaning below.old)) (width_bytes own) piece.cover word strobe)
        (S.Slave.meaning below.old) }
    ensures sent { S.Slave.meaning below.new
        ≡ sent_piece piece.size (width_bytes own) word strobe (S.Slave.meaning below.old)
        piece.cover.first piece.cover.last }
{
    let down = Move {
        cover: piece.cover,
        bus: own,
        base: piece.word_start(),
    };
    let _ = below.open(Channel::Write, piece.alone());
    done(below.give(down.word(0, word), down.strobe(strobe)))
}

// Fetches a piece of a read beat, and puts it into its lanes at `base` over a word.
fn fetch_piece<S: Slave>(below: &mut S, piece: BusBeat, base: u32, word: u64) -> (u64, Response)
    requires ready { ready (S.Slave.meaning below.old) ≡ true }
    requires bus { width_bytes piece.bus ≡ (S.Slave.meaning below.old).width }
    ensures word { result.0 ≡ moved_word word
        (read_word (board (S.Slave.meaning below.old)) (width_bytes piece.bus) piece.cover)
        base piece.cover.first piece.cover.last (width_bytes piece.bus) }
    ensures worst { result.1
        ≡ read_worst (board (S.Slave.meaning below.old)) (width_bytes piece.bus) piece.cover }
    ensures after { S.Slave.meaning below.new ≡ S.Slave.meaning below.old }
    ensures got { (result.0, result.1, S.Slave.meaning below.new)
        ≡ fetched_piece piece.size base (S.Slave.meaning below.old) word
        piece.cover.first piece.cover.last }
{
    let _ = below.open(Channel::Read, piece.alone());
    let (got, response) = got(below.take());
    let up = Move {
        cover: piece.cover,
        bus: piece.bus,
        base,
    };
    (up.word(word, got), response)
}

// Sends a write beat down, piece by piece. Its strobe keeps to its lanes.
// The slave below ends where the pieces, sent one after the other, leave it.
pub(crate) fn send<S: Slave>(slave: &mut S, beat: BusBeat, word: u64, strobe: u8) -> Response
    requires ready { ready (S.Slave.meaning slave.old) ≡ true }
    requires kept { stray (width_bytes beat.bus) beat.cover.first beat.cover.last strobe ≡ false }
    ensures worst { result
        ≡ write_worst (board (S.Slave.meaning slave.old)) (width_bytes beat.bus) beat.cover strobe }
    ensures after { S.Slave.meaning slave.new ≡ with_write idle Okay
        (written (board (S.Slave.meaning slave.old)) (width_bytes beat.bus) beat.cover word strobe)
        (S.Slave.meaning slave.old) }
    ensures sent { S.Slave.meaning slave.new
        ≡ sent_beat beat.size (width_bytes beat.bus) word strobe (S.Slave.meaning slave.old)
        beat.cover }
{
    let mut worst = Response::Okay;
    for piece in beat.pieces(slave.width()) {
        worst = worst.worse(send_piece(slave, piece, beat.bus, word, strobe));
    }
    worst
}

// Fetches a read beat from below, piece by piece.
// The slave below ends where the pieces, fetched one after the other, leave it: as it was.
pub(crate) fn fetch<S: Slave>(slave: &mut S, beat: BusBeat) -> (u64, Response)
    requires { ready (S.Slave.meaning slave.old) ≡ true }
    ensures word { result.0
        ≡ read_word (board (S.Slave.meaning slave.old)) (width_bytes beat.bus) beat.cover }
    ensures worst { result.1
        ≡ read_worst (board (S.Slave.meaning slave.old)) (width_bytes beat.bus) beat.cover }
    ensures after { S.Slave.meaning slave.new ≡ S.Slave.meaning slave.old }
    ensures got { (result.0, result.1, S.Slave.meaning slave.new)
        ≡ fetched_beat beat.size (width_bytes beat.bus) (S.Slave.meaning slave.old) beat.cover }
{
    let base = beat.word_start();
    let mut word = 0;
    let mut worst = Response::Okay;
    for piece in beat.pieces(slave.width()) {
        let (joined, response) = fetch_piece(slave, piece, base, word);
        word = joined;
        worst = worst.worse(response);
    }
    (word, worst)
}

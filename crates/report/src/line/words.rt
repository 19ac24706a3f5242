// The words of an outcome at the end of a line.
ghost use Rattle.std.specs.Prelude.{◌≡◌, ◌++◌};
ghost use Rattle.report.specs.Laws.{AnswerFits, ToldFits};
ghost use Rattle.report.specs.Lines.{answer_words, last_word, response_name, source, words as told_words};
ghost use Rattle.report.specs.Texts.{cut, text};

use super::Line;
use crate::told::{Refusal, Told};
use fabric::Answer;
use slave::Response;

// The name of a response.
fn response_name(response: Response) -> &'static [u8]
    ensures { result.now ≡ response_name response }
{
    match response {
        Response::Okay => b"OKAY",
        Response::SlvErr => b"SLVERR",
        Response::DecErr => b"DECERR",
    }
}

// The mark of a read's last beat.
fn last_word(left: u16) -> &'static [u8]
    ensures { result.now ≡ last_word left }
{
    if left == 0 { b" LAST" } else { b"" }
}

#[tactic(auto, using(crate::proofs::Pushes::cut_more))]
impl Line {
    // A master and an ID.
    fn source(&mut self, master: u8, id: u8)
        ensures { text self.new ≡ cut (text self.old ++ source master id) }
    {
        self.number(u32::from(master));
        self.push(b" ");
        self.hex2(id);
    }

    // An answer's words.
    fn answer(&mut self, answer: Answer)
        ensures text { text self.new ≡ cut (text self.old ++ answer_words answer) }
        ensures fits { AnswerFits answer }
    {
        match answer {
            Answer::Accepted => self.push(b"ACC"),
            Answer::Granted { master, id } => {
                self.push(b"GRT ");
                self.source(master, id);
            }
            Answer::More(left) => {
                self.push(b"MORE ");
                self.number(u32::from(left));
            }
            Answer::Done {
                master,
                id,
                response,
            } => {
                self.push(b"B ");
                self.source(master, id);
                self.push(b" ");
                self.push(response_name(response));
            }
            Answer::Beat {
                master,
                id,
                word,
                response,
                left,
            } => {
                self.push(b"R ");
                self.source(master, id);
                self.push(b" ");
                self.hex16(word);
                self.push(b" ");
                self.push(response_name(response));
                self.push(last_word(left));
            }
        }
    }

    // An outcome's words.
    pub(crate) fn told(&mut self, told: Told)
        ensures text { text self.new ≡ cut (text self.old ++ told_words told) }
        ensures fits { ToldFits told }
    {
        match told {
            Ok(answer) => self.answer(answer),
            Err(Refusal { layer, number }) => {
                self.push(b"ERR ");
                self.push(&[layer.letter(), b' ']);
                self.number(u32::from(number));
            }
        }
    }
}

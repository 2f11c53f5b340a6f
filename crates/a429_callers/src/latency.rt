//! How late words go out by transmitters on threads.
ghost use Rattle.a429_callers.specs.KnownWords.{KnownWordsGoOutInTime};

use a429_core::laws::{
    accepted_words_go_out_in_time, cut_histories_answer_alike, words_are_accepted_one_by_one,
};
use a429_slots::laws::frames_go_on;
use a429_workers::laws::one_run;

/// A group's transmitter knows of a word because it loaded the word for a cell, or met the word's receiver. Let the
/// output of the word's source have stayed for a period before. Then the word has gone out, it or a later one of the
/// source, before one period of slots has passed on the output's bus. What the transmitter does is what the machine
/// does, so the machine's law of latency is true of its calls. A hold lets each word go out once.
pub fn known_words_go_out_in_time()
    ensures { KnownWordsGoOutInTime }
{
    one_run();
    frames_go_on();
    cut_histories_answer_alike();
    words_are_accepted_one_by_one();
    accepted_words_go_out_in_time();
}

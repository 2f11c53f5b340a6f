//! What follows for all calls of a station, and for words and their fields.
ghost use denote.Param.Send.{IsSend};
ghost use Rattle.a429_c.specs.Histories.{StationsKeepHistory};
ghost use Rattle.a429_c.specs.Words.{DecodedWordsAreEncoded, EncodedWordsAreDecoded};
ghost use Rattle.a429_c.specs.contracts.station.StationHandle.{the_row as station_row};

use a429_core::laws::calls_are_answered;
use a429_word::laws::fields_determine_word;

/// After any calls of a station, the next one gives what the definition of answers says after the history of all of
/// them. If that is a refusal, the call has its status.
pub fn histories_are_answered()
    ensures { StationsKeepHistory }
{
    calls_are_answered();
}

/// A station may go to another thread: what it owns lies in memory that any thread may free.
pub fn stations_may_move()
    ensures { IsSend station_row }
{}

/// `a429_decode` gives back the fields of which `a429_encode` made a word. `a429_encode` gives back the word of which
/// `a429_decode` read the fields.
pub fn words_go_to_fields_and_back()
    ensures fields { EncodedWordsAreDecoded }
    ensures words { DecodedWordsAreEncoded }
{
    fields_determine_word();
}

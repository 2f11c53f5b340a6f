//! What follows from the rules of the command line.
ghost use Rattle.a429_arguments.specs.RequestRows.{LiveWordsAsk, PlainWordsAsk};

/// The plain form of a request is what it names and then its options. It asks for the request.
#[tactic(auto, using(crate::proofs::AskedWords::words_ask))]
pub fn plain_words_ask()
    ensures { PlainWordsAsk }
{}

/// `live` accepts each spelling of FRAMES that the rules of the command line accept, such as `007` or `+7`.
#[tactic(auto, using(crate::proofs::AskedWords::live_words))]
pub fn live_words_ask()
    ensures { LiveWordsAsk }
{}

//! What follows from the definitions of commands.
ghost use Rattle.a429_cli.specs.Encoding.{EncodedWordsAreRead};

/// What `encode` prints is read as the word of its label and fields: by `word`, and in a script, a log or a file of words.
pub fn encoded_words_are_read()
    ensures { EncodedWordsAreRead }
{}

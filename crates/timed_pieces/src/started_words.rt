//! Laws of what words hold as a run begins and as it ends.
ghost use Rattle.timed_pieces.specs.StartedWords.{StartedWordsHold, EndedWordsShow, FirstWordsBegin, FirstWordsFit};

/// Words that hold the inputs of a run show the store that the run of the pieces starts with, whatever they hold elsewhere.
pub fn started_words_hold()
    ensures { StartedWordsHold }
{}

/// Words that show a store at the end of a run hold the answer of the pieces' run.
pub fn ended_words_show()
    ensures { EndedWordsShow }
{}

/// The first contents of a program's frame are its inputs and what file scope keeps before the first run.
pub fn first_words_begin()
    ensures { FirstWordsBegin }
{}

/// The first contents of a program's frame have the widths of its variables and memories.
pub fn first_words_fit()
    ensures { FirstWordsFit }
{}

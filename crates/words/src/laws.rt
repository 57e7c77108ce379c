//! What is proved of words and records, besides what each call's contract says.
//!
//! These functions do nothing. Each one's contract is a theorem, so that the crate is proved only with the theorem.
ghost use Rattle.words.specs.Examples.{WorkedExamples};
ghost use Rattle.words.specs.Records.{WrittenRecordsReadBack, ReadRecordsWriteBack};
ghost use Rattle.words.specs.Words.{WordsShareFewerThanKSlots};

/// Over every lawful field, the words of two different numbers share at most k - 1 slots.
pub fn words_share_fewer_than_k_slots()
    ensures { WordsShareFewerThanKSlots }
{}

/// Reading gives back every record that can be written, and writing the bytes of every record that can be read.
pub fn records_give_each_other_back()
    ensures read_back { WrittenRecordsReadBack }
    ensures write_back { ReadRecordsWriteBack }
{}

/// The worked examples follow from the definitions.
pub fn worked_examples_hold()
    ensures { WorkedExamples }
{}

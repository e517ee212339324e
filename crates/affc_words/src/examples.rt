//! What words stand for, as laws: `specs/Examples.antt` has the words, with what was found by hand from the rules.

ghost use Rattle.affc_words.specs.Examples.{CountsAreRight, NamesAreKnown, WordsAreWhole, OptionsAreTheForms, OperandsFollowTheEnd, OptionsStandAnywhere};

pub fn words()
    ensures counts_are_right { CountsAreRight }
    ensures names_are_known { NamesAreKnown }
    ensures words_are_whole { WordsAreWhole }
    ensures options_are_the_forms { OptionsAreTheForms }
    ensures operands_follow_the_end { OperandsFollowTheEnd }
    ensures options_stand_anywhere { OptionsStandAnywhere }
{}

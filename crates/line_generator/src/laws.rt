//! The laws of lines that are made of a seed. The function does nothing; what it ensures is the laws.
ghost use Rattle.line_generator.specs.Theorems.{EachHasTwoWords, GeneratedAreCounted};

/// So many lines come of a seed as were asked for, and each of them has two words.
pub fn lines_are_of_two_words()
    ensures count { GeneratedAreCounted }
    ensures words { EachHasTwoWords }
{}

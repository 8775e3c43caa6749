//! The laws of spellings. Each function does nothing; what it ensures is the law.
ghost use Rattle.net_frames.specs.Theorems.{BytesBeginWithOne, ListsAreApart, FrontIsFrames};

/// No spelling is a beginning of another, and bytes are the spelling of one list of frames at most. A
/// front that spells frames is of the first ones.
pub fn spellings_are_apart()
    ensures one { BytesBeginWithOne }
    ensures lists { ListsAreApart }
    ensures front { FrontIsFrames }
{}

//! The laws of the texts of jobs. Each function does nothing; what it ensures is the law.
ghost use Rattle.job_text.specs.Laws.{JobTextHasNoFault, JobTextNamesItsFiles, JobTextSaysTasks, JobTextSaysShape, JobTextSaysWork, CommandHasNoFault, WordsAreOneCommand, RunHasRange};

/// A text of a job has no fault, and says which files the job reads and which tasks and edges it has and
/// what its stages do.
pub fn job_texts_are_clear()
    ensures no_fault { JobTextHasNoFault }
    ensures files { JobTextNamesItsFiles }
    ensures tasks { JobTextSaysTasks }
    ensures shape { JobTextSaysShape }
    ensures work { JobTextSaysWork }
{}

/// The words of a command have no fault and are of no other command, and the options of a run are in
/// their ranges.
pub fn words_are_clear()
    ensures no_fault { CommandHasNoFault }
    ensures one { WordsAreOneCommand }
    ensures ranges { RunHasRange }
{}

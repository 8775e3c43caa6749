//! The laws of the texts of scripts. Each function does nothing; what it ensures is the law.
ghost use Rattle.script_text.specs.Laws.{ScriptTextHasNoBadLine, ScriptTextIsOfOneScript, FirstBadLineIsOne, TextIsScriptOrHasBadLine};

/// Each text is a script's, and then of one script only and without a bad line, or it has one first bad
/// line.
pub fn script_texts_are_clear()
    ensures no_bad_line { ScriptTextHasNoBadLine }
    ensures one_script { ScriptTextIsOfOneScript }
    ensures one_bad_line { FirstBadLineIsOne }
    ensures decided { TextIsScriptOrHasBadLine }
{}

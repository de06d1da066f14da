// What holds of scripts and their texts.

ghost use Rattle.std.specs.Prelude.{◌≡◌, ℕ, List, Ok, Err};
ghost use Rattle.mdr_script.specs.declared.script.Script.{Script};
ghost use Rattle.mdr_script.specs.declared.script_error.ScriptKind.{ScriptKind};
ghost use Rattle.mdr_script.specs.Scripts.{script_of};
ghost use Rattle.mdr_script.specs.Worked.{LinesAreRead};

/// A text is at most one script.
pub fn a_text_is_one_script()
    ensures { (bytes : List ℕ) (script other : Script) → script_of bytes ≡ Ok script → script_of bytes ≡ Ok other → script ≡ other }
{}

/// A script's text has no refused line.
pub fn a_scripts_text_has_no_fault()
    ensures { (bytes : List ℕ) (script : Script) (line : ℕ) (kind : ScriptKind) → script_of bytes ≡ Ok script → script_of bytes ≡ Err (line, kind) → ⊥ }
{}

/// What some lines and texts are read as.
pub fn lines_are_read()
    ensures { LinesAreRead }
{}

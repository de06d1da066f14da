// Laws of honest far sides and of runs over them, each as a function that does nothing.

ghost use Rattle.mdr_honest.specs.Loading.{LoadedHalvesAreSound, LoadedTextsAreNotRefused, TextsLoadOneThing, TextsOfSourcesAreLoaded, TextsOfSourcesAreTaken};
ghost use Rattle.mdr_honest.specs.Meanings.{RunIsMeaning};
ghost use Rattle.mdr_honest.specs.Scripts.{BoundCommandsFit, ScriptsFit, TextScriptsFit};

/// Texts are loaded as one program and one plan.
pub fn texts_load_one_thing()
    ensures { TextsLoadOneThing }
{}

/// Texts that are loaded are refused for no cause.
pub fn loaded_texts_are_not_refused()
    ensures { LoadedTextsAreNotRefused }
{}

/// The program that is loaded is sound, and the plan suits it.
pub fn loaded_halves_are_sound()
    ensures { LoadedHalvesAreSound }
{}

/// The texts of the user half and of the plan of a source are loaded, as a half that gives the replies of the whole program.
pub fn texts_of_sources_are_loaded()
    ensures { TextsOfSourcesAreLoaded }
{}

/// So an honest far side doesn't refuse them.
pub fn texts_of_sources_are_taken()
    ensures { TextsOfSourcesAreTaken }
{}

/// A script that was bound to a program calls its functions with arguments that fit.
pub fn bound_commands_fit()
    ensures { BoundCommandsFit }
{}

/// One that was read from a text has numbers of 32 bits for the device besides.
pub fn text_scripts_fit()
    ensures { TextScriptsFit }
{}

/// A script that is read and bound fits its program: each command names a function or a global of it, with arguments that
/// fit, and the numbers for registers are words of 32 bits.
pub fn scripts_fit()
    ensures { ScriptsFit }
{}

/// A run over an honest far side means what one memory does, within 8 messages for each tick and 6 for each command that
/// called a function (4 for each tick where nothing is called back), or the far side failed.
pub fn run_is_meaning()
    ensures { RunIsMeaning }
{}

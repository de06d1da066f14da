// The words for why a line of a script is refused.

ghost use Rattle.std.specs.Prelude.{◌≡◌};
ghost use Rattle.mdr_top.specs.Scripts.{kind_word};

use mdr_script::ScriptKind;

/// The word for why a line is refused.
pub(crate) fn kind_word(kind: ScriptKind) -> &'static str
    ensures { result.now ≡ kind_word kind }
{
    match kind {
        ScriptKind::Form => "Form",
        ScriptKind::Range => "Range",
        ScriptKind::Order => "Order",
        ScriptKind::NoFunction => "NoFunction",
        ScriptKind::Arity => "Arity",
        ScriptKind::ArgKind => "ArgKind",
        ScriptKind::NoGlobal => "NoGlobal",
        ScriptKind::Limit => "Limit",
    }
}

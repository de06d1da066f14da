// What holds of the texts of plans and of halves.

ghost use Rattle.std.specs.Prelude.{◌≡◌, ℕ, false, true, List, Ok};
ghost use Rattle.mdr_core.specs.declared.plan.Half.{Half};
ghost use Rattle.mdr_core.specs.declared.plan.Plan.{Plan};
ghost use Rattle.mdr_core.specs.declared.program.Program.{Program};
ghost use Rattle.mdr_syntax.specs.declared.token.Token.{Token};
ghost use Rattle.mdr_syntax.specs.declared.tree.Tree.{Tree as SourceTree};
ghost use Rattle.mdr_syntax.specs.Tokens.{tokens_of};
ghost use Rattle.mdr_grammar.specs.Grammar.{Reads};
ghost use Rattle.mdr_roundtrip.specs.Again.{IsPrintedAsSource};
ghost use Rattle.mdr_half.specs.Halves.{half_tree, kernel_text, user_text};
ghost use Rattle.mdr_half.specs.Plans.{plan_text};
ghost use Rattle.mdr_plan.specs.Texts.{IsPlanText};
ghost use Rattle.mdr_texts.specs.Canonical.{IsCanonical};
ghost use Rattle.mdr_texts.specs.HalfTexts.{AreJoinedTo};
ghost use Rattle.mdr_texts.specs.PlanTexts.{IsTextOf, struct_names};

/// The bytes that are read as a plan are its text, in each program with structs of the names that they give.
pub fn a_text_that_is_read_is_its_plans()
    ensures { (bytes : List ℕ) (plan : Plan) → IsPlanText bytes plan → IsTextOf bytes plan }
{}

/// The text of a plan is read as the plan.
pub fn the_text_of_a_plan_is_read_as_the_plan()
    ensures { (program : Program) (plan : Plan) → IsCanonical (struct_names program) plan → IsPlanText (plan_text program plan) plan }
{}

/// The text of each half of a source is a source of that half, places aside, whatever the plan is.
pub fn printed_halves_are_sources()
    ensures { (bytes : List ℕ) (tokens : List Token) (tree : SourceTree) (half : Half) (plan : Plan) → tokens_of bytes ≡ Ok tokens → Reads false tokens tree → IsPrintedAsSource true (half_tree half plan tree) }
{}

/// The texts of the two halves of a source, each read, are joined to the source's tree, places aside, whatever the plan
/// is.
pub fn halves_that_are_read_are_joined()
    ensures { (bytes : List ℕ) (tokens kernel_tokens user_tokens : List Token) (tree kernel user : SourceTree) (plan : Plan) → tokens_of bytes ≡ Ok tokens → Reads false tokens tree → tokens_of (kernel_text plan tree) ≡ Ok kernel_tokens → Reads true kernel_tokens kernel → tokens_of (user_text plan tree) ≡ Ok user_tokens → Reads true user_tokens user → AreJoinedTo kernel user tree }
{}

// What holds of lines and their texts.

ghost use Rattle.std.specs.Prelude.{◌≡◌, ◌<◌, ◌^◌, ℕ, false, length, List, ◌∷◌, ◌++◌};
ghost use Rattle.mdr_core.specs.declared.plan.Plan.{Plan};
ghost use Rattle.mdr_plan.specs.declared.plan_error.PlanKind.{PlanKind};
ghost use Rattle.mdr_plan.specs.Steps.{Reached, IsRefused};
ghost use Rattle.mdr_plan.specs.Texts.{IsOneLine, IsPlanText, IsFault, GoesOn, is_done};
ghost use Rattle.mdr_core.specs.declared.types.Ty.{Ty};
ghost use Rattle.mdr_core.specs.TypeText.{text_of};
ghost use Rattle.mdr_plan.specs.declared.line.Line.{Line};
ghost use Rattle.mdr_plan.specs.declared.reader.Reader.{Reader};
ghost use Rattle.mdr_plan.specs.Lines.{Reads};
ghost use Rattle.mdr_plan.specs.Naming.{struct_number};
ghost use Rattle.mdr_plan.specs.TypeTexts.{IsPointerText, structs_named};

/// A text is at most one of the lines that may come next.
pub fn a_text_is_one_line()
    ensures { (r : Reader) (bytes : List ℕ) (k l : Line) → Reads r bytes k → Reads r bytes l → k ≡ l }
{}

/// What is read as a pointer type has the text that `type_text` gives of it.
pub fn pointer_types_have_their_texts()
    ensures { (names : List (List ℕ)) (ty : Ty) (bytes : List ℕ) → IsPointerText (struct_number names) ty bytes → (text_of (structs_named names) ty).bytes ≡ bytes }
{}

/// A text is that of at most one plan.
pub fn a_text_is_of_one_plan()
    ensures { (bytes : List ℕ) (plan other : Plan) → IsPlanText bytes plan → IsPlanText bytes other → plan ≡ other }
{}

/// A plan's text has no fault.
pub fn a_plans_text_has_no_fault()
    ensures { (bytes : List ℕ) (plan : Plan) (number : ℕ) (kind : PlanKind) → IsPlanText bytes plan → IsFault bytes number kind → ⊥ }
{}

/// A text has at most one fault, of one kind.
pub fn a_text_has_one_fault()
    ensures { (bytes : List ℕ) (number other : ℕ) (kind another : PlanKind) → IsFault bytes number kind → IsFault bytes other another → (number ≡ other) × (kind ≡ another) }
{}

/// No plan's text goes on with a line that is refused.
pub fn no_plans_text_has_a_refused_line()
    ensures { (text : List ℕ) (n : ℕ) (r : Reader) (line more : List ℕ) (plan : Plan) → Reached text n r → IsOneLine line → IsRefused r line → IsPlanText (text ++ (line ++ 10 ∷ more)) plan → ⊥ }
{}

/// What was read without a fault goes on to a plan's text.
pub fn what_was_read_goes_on_to_a_plan()
    ensures { (text : List ℕ) (n : ℕ) (r : Reader) → Reached text n r → length text < 2 ^ 64 → is_done r.stage ≡ false → GoesOn text }
{}

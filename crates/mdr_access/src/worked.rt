// A network driver worked out: what the definitions of access forms, keys and plans say of it.

ghost use Rattle.mdr_access.specs.Worked.{NetworkDriverHasKeys};
ghost use Rattle.mdr_access.specs.WorkedForms.{FormsHaveKeys};

/// The keys of each function of a network driver's user half.
pub fn a_network_driver_has_keys()
    ensures { NetworkDriverHasKeys }
{}

/// The keys of pointers to scalars, of what is delivered, and of a parameter that is an object; and which fields are exposed.
pub fn forms_have_keys()
    ensures { FormsHaveKeys }
{}

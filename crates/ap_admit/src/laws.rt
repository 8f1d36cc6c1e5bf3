//! What is proved of admission, each the contract of a function that does nothing.
ghost use Rattle.ap_admit.specs.Admission.{AdmissionIsSound, ObligationsSuffice, ObligationsAreKnown, ChosenMeasureFits};
ghost use Rattle.ap_admit.specs.Condition.{AdmittedIsSound, OwedIsKnown};
ghost use Rattle.ap_admit.specs.Kept.{AdmissionKeepsSound, StubsKnow};

/// A recursive function whose obligations are valid in a sound world may be added: each call of it has a
/// value, and the world stays sound.
pub fn admission_is_sound()
    ensures law { AdmissionIsSound }
    ensures obligations { ObligationsSuffice }
{}

/// The same with the mask that the function keeps; a stub of its name and formals serves to see that its
/// body is known.
pub fn admission_keeps_sound()
    ensures law { AdmissionKeepsSound }
    ensures stubs { StubsKnow }
    ensures definition { AdmittedIsSound }
{}

/// What is asked of a function speaks of the world without it, and so does a measure that is chosen.
pub fn obligations_are_known()
    ensures known { ObligationsAreKnown }
    ensures chosen { ChosenMeasureFits }
    ensures definition { OwedIsKnown }
{}

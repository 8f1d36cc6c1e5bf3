//! The laws of elimination, each the contract of a function that does nothing.
ghost use Rattle.ap_elim.specs.Laws.{NamesAreFound, NamesAreNew, ElimApplies};

/// A name is found wherever fewer variables occur than memory can hold: among one more number than there are
/// variables, one makes the name new. What is found is new.
pub fn names_are_new()
    ensures found { NamesAreFound }
    ensures new { NamesAreNew }
{}

/// There is an elimination wherever its rune is enabled and a literal has the `car` or the `cdr` of a variable.
pub fn elim_applies()
    ensures applies { ElimApplies }
{}

ghost use Rattle.std.specs.Prelude.{◌≡◌, ℕ, List, Option};
ghost use Rattle.ap_names.specs.Names.{Name, IsName};
ghost use Rattle.ap_names.specs.Printed.{name_text, PrintsAs, IsReading};
ghost use Rattle.ap_names.specs.Reading.{name_of};

/// The law that printing has one reading: no two names print as one text, the case of letters aside,
/// so what a text is read as is determined. It does nothing.
pub fn printing_has_one_reading()
    ensures names { (m n : Name) → IsName m → IsName n → PrintsAs m (name_text n) → m ≡ n }
    ensures texts { (text : List ℕ) (a b : Option Name) → IsReading text a → IsReading text b → a ≡ b }
    ensures reading { (text : List ℕ) → IsReading text (name_of text) }
{}

ghost use Rattle.std.specs.Prelude.{ℕ, ◌≡◌, ◌<◌, ◌≤◌, false, IsTrue, List, [], ◌∷◌, ◌++◌, ℤ};
ghost use Rattle.ap_value.specs.declared.symbol.Symbol.{Symbol};
ghost use Rattle.ap_value.specs.declared.value.Value.{Value, Int, Chr, Str, Sym};
ghost use Rattle.ap_value.specs.Fits.{fits, all_fit};
ghost use Rattle.ap_tokens.specs.Gaps.{at};
ghost use Rattle.ap_reader.specs.declared.form.Body.TheVariants as body;
ghost use Rattle.ap_reader.specs.Heads.{made};
ghost use Rattle.ap_reader.specs.Grammar.{Reads};
ghost use Rattle.ap_term.specs.declared.term.Term.{Quote};
ghost use Rattle.ap_term.specs.Atoms.{reads_back};
ghost use Rattle.ap_term.specs.Printed.{colon_text, value_text, term_text};
ghost use Rattle.ap_round_trip.specs.ReadBack.{nesting, IsReadAs, IsReadQuoted};

/// What is printed is read back as itself, by the printed bytes of values and terms and the grammar of
/// forms. The text of a symbol, a string, a character or an integer of 128 bits is that one form, at the
/// text's first byte. The text of any value is one form whose value within a quote is that value, and
/// the text of a constant is one quoted form of it, where the integers in it have 128 bits and no more
/// than 400 lists and quote marks stand within each other: more the reader refuses. A symbol that is
/// printed between bars isn't read back without them.
pub fn read_back()
    ensures symbols { (s : Symbol) → Reads (at 0 (value_text (Sym s))) (made 0 (body.Sym s) ∷ []) }
    ensures bars { (s : Symbol) → reads_back s ≡ false → Reads (at 0 (colon_text s.keyword ++ s.name)) (made 0 (body.Sym s) ∷ []) → ⊥ }
    ensures strings { (codes : List ℕ) → Reads (at 0 (value_text (Str codes))) (made 0 (body.Str codes) ∷ []) }
    ensures characters { (code : ℕ) → Reads (at 0 (value_text (Chr code))) (made 0 (body.Chr code) ∷ []) }
    ensures integers { (n : ℤ) → IsTrue (fits n) → Reads (at 0 (value_text (Int n))) (made 0 (body.Int n) ∷ []) }
    ensures values { (v : Value) → IsTrue (all_fit v) → nesting v ≤ 400 → IsReadAs (value_text v) v }
    ensures constants { (v : Value) → IsTrue (all_fit v) → nesting v < 400 → IsReadQuoted (term_text (Quote v)) v }
{}

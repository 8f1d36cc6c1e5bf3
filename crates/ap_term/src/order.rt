ghost use Rattle.std.specs.Prelude.{◌≡◌, ◌-◌, ◌^◌, ◌<◌, ◌≤◌, ◌⊎◌, true, false, IfSome, IfNone};
ghost use Rattle.ap_term.specs.declared.term.Term.{Term};
ghost use Rattle.ap_term.specs.Printed.{term_text};
ghost use Rattle.ap_term.specs.Terms.{term_fits, term_size};
ghost use Rattle.ap_term.specs.Order.{term_less};

use crate::compare::compare_term;
use crate::counts::counts;
use crate::tree::Term;

/// The law of the order of terms: no term comes before itself, what comes before a term comes before all
/// that this one comes before, and of two terms that print differently one comes before the other. So of
/// two different terms one comes before the other, where each integer in them has 128 bits, as in every
/// term that a program holds. It does nothing.
pub fn term_order_is_total()
    ensures strict { (a : Term) → term_less a a ≡ true → ⊥ }
    ensures transitive { (a b c : Term) → term_less a b ≡ true → term_less b c ≡ true → term_less a c ≡ true }
    ensures total { (a b : Term) → term_less a b ≡ false → term_less b a ≡ false → term_text a ≡ term_text b }
    ensures apart { (a b : Term) → term_fits a ≡ true → term_fits b ≡ true → term_less a b ≡ false → term_less b a ≡ false → a ≡ b }
{}

/// The law that different terms print differently, where each integer in them has 128 bits, as in every
/// term that a program holds. It does nothing.
pub fn terms_print_apart()
    ensures { (a b : Term) → term_fits a ≡ true → term_fits b ≡ true → term_text a ≡ term_text b → a ≡ b }
{}

/// Whether a term comes before another: by fewer variable occurrences, then by fewer function symbols,
/// then by fewer nodes in constants, then by the printed bytes, as in a dictionary. `None` exactly where the
/// nodes of one of them pass 64 bits. It takes no memory, and the bytes aren't written. The order is as in
/// the manual's topic `term-order`.
pub fn term_less(a: &Term, b: &Term) -> Option<bool>
    ensures value { IfSome result (λ less. less ≡ term_less a.now b.now) }
    ensures within { IfSome result (λ _. (term_size a.now ≤ 2 ^ 64 - 1) × (term_size b.now ≤ 2 ^ 64 - 1)) }
    ensures past { IfNone result ((2 ^ 64 - 1 < term_size a.now) ⊎ (2 ^ 64 - 1 < term_size b.now)) }
{
    let left = counts(a)?;
    let right = counts(b)?;
    if left.variables != right.variables {
        return Some(left.variables < right.variables);
    }
    if left.functions != right.functions {
        return Some(left.functions < right.functions);
    }
    if left.constants != right.constants {
        return Some(left.constants < right.constants);
    }
    Some(compare_term(a, None, b, None).is_lt())
}

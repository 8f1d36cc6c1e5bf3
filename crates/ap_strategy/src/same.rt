ghost use Rattle.std.specs.Prelude.{◌≡◌, ◌↔◌, IsTrue};

use crate::clauses::same_terms;
use crate::plan::Settings;
use ap_walk::Process;
use ap_world::same_theory;

/// Whether two lists of processes are one. Takes no memory.
fn same_processes(a: &[Process], b: &[Process]) -> bool
    ensures { IsTrue result ↔ (a.now ≡ b.now) }
{
    if a.len() != b.len() {
        return false;
    }
    for i in 0..a.len() {
        if a[i] != b[i] {
            return false;
        }
    }
    true
}

/// Whether two settings are one. Takes no memory.
pub(crate) fn same_settings(a: &Settings, b: &Settings) -> bool
    ensures { IsTrue result ↔ (a.now ≡ b.now) }
{
    same_theory(&a.theory, &b.theory)
        && same_terms(a.expand.as_slice(), b.expand.as_slice())
        && same_processes(a.skip.as_slice(), b.skip.as_slice())
}

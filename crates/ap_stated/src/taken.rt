ghost use Rattle.std.specs.Prelude.{◌≡◌};
ghost use Rattle.ap_world.specs.World.{has_name};

use ap_rules::Ruled;
use ap_value::Symbol;

/// Whether a name is taken. Takes no memory.
pub fn is_taken(w: &Ruled, name: &Symbol) -> bool
    ensures { result ≡ has_name w.now.entries name.now }
{
    w.world().has(name)
}

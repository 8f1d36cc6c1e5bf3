ghost use Rattle.std.specs.Prelude.{◌≡◌, IfOk};
ghost use Rattle.ap_strategy.specs.Goals.{first_settings};

use ap_hints::Hints;
use ap_list::{NoMemory, Seq};
use ap_rules::Ruled;
use ap_term::{Term, copy_terms};
use ap_walk::Process;
use ap_world::{Theory, copy_theory};
use std::alloc::Global;
use std::marker::Brand;

/// What the goals of an attempt are worked by: the world with the index of its rules, the hints for goals by their
/// names, and the number of steps that one clause may spend.
#[derive(Drop)]
pub struct Plan {
    pub world: Ruled,
    pub hints: Hints,
    pub step_limit: u32,
}

/// Which plan the tasks of a type are worked by. A brand has no function, and costs nothing: a call that passes
/// `Brand` (of `std::marker`) picks the plan in its proof.
pub trait Planned {
    ghost use Rattle.ap_strategy.specs.declared.plan.Plan.{Plan};

    ghost plan: { Plan };
}

impl Planned for Brand {
    ghost use Rattle.ap_strategy.specs.Goals.{no_plan};

    ghost plan = { no_plan };
}

/// What holds for a goal and all below it: the theory, the calls that are to be opened, and the processes
/// that don't apply. See the manual's topic `hints`: `:in-theory`, `:expand` and `:do-not`.
#[derive(Debug)]
pub struct Settings {
    pub theory: Theory,
    pub expand: Seq<Term>,
    pub skip: Seq<Process>,
}

// One call wherever settings are let go.
impl Drop for Settings {
    fn drop(self) {
        let Settings {
            theory: _theory,
            expand: _expand,
            skip: _skip,
        } = self;
    }
}

/// What holds where no hint says otherwise: the theory of the plan's world.
pub fn first_settings(alloc: Global, plan: &Plan) -> Result<Settings, NoMemory>
    ensures { IfOk result (λ s. s ≡ first_settings plan.now) }
{
    let theory = copy_theory(alloc, plan.world.world().theory())?;
    Ok(Settings {
        theory,
        expand: Seq::new(alloc),
        skip: Seq::new(alloc),
    })
}

/// A copy of settings.
pub fn copy_settings(alloc: Global, settings: &Settings) -> Result<Settings, NoMemory>
    ensures { IfOk result (λ s. s ≡ settings.now) }
{
    let theory = copy_theory(alloc, &settings.theory)?;
    let expand = copy_terms(alloc, settings.expand.as_slice())?;
    let skip = Seq::from_slice(alloc, settings.skip.as_slice())?;
    Ok(Settings {
        theory,
        expand,
        skip,
    })
}

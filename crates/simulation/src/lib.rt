// The run: the call. Its parts are the entry's tests (crate `entry`), set-up (set_up.rt), and the turns (run.rt) that
// crate `turn` takes; crate `runs` has the types and the definitions.
#![tactic(auto)]

ghost use Rattle.runs.specs.State.{lent_of, state};
ghost use Rattle.entry.specs.Lists.{SameLists, inputs_of};
ghost use Rattle.runs.specs.Demands.{RunContract};

use entry::{Learner, Lists, Settings};

mod run;
mod set_up;

pub use runs::{Progress, Refused};

// A run, from its entry to its answer.
pub fn simulate(
    lists: &mut Lists<'_>,
    learner: Learner<'_>,
    settings: Settings,
) -> Result<Progress, Refused>
    ensures run { RunContract (inputs_of learner.entry settings)
        (state (lent_of lists.old) 0 settings.seed) result (lent_of lists.new) }
    ensures same { SameLists lists.old lists.new }
{
    let retention_ok = float32::is_finite(settings.retention);
    let entry = entry::check_entry(lists.lengths(), learner, settings, retention_ok);
    if let Err(refusal) = entry {
        return Err(Refused::at_entry(refusal, settings.seed));
    }
    run::simulate_inner(lists, learner, settings)
}

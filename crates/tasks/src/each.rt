//! The files of a command, one after another.
ghost use Rattle.command_line.specs.Words.{texts};
ghost use Rattle.tasks.specs.Each.{GoesOver, ReturnsWithState};
ghost use Rattle.outcomes.specs.declared.outcome.Outcome.TheVariants.{Done};

use outcomes::{Outcome, ends_command, worse};

/// Calls `act` for each name in turn, with the state that the calls share. Continues after a fault
/// of a file, unless memory or the output failed. Returns the outcome that ended it, or else the
/// worst.
pub fn with_each<S, F: Fn(&mut S, &str) -> Outcome>(
    names: &[String],
    state: &mut S,
    act: F,
) -> Outcome
    requires { F.IsAlwaysCallable act }
    ensures { GoesOver (ReturnsWithState F.Fn act) Done
        state.old (texts names.now) result state.new }
{
    let mut outcome = Outcome::Done;
    for name in names {
        let ended = act(state, name);
        if ends_command(&ended) {
            return ended;
        }
        outcome = worse(outcome, ended);
    }
    outcome
}

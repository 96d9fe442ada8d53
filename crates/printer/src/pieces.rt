// What surrounds each of several parts.
ghost use Rattle.items.specs.Item.{newline, ◌⨟◌, say, lit, when};
ghost use Rattle.plan.specs.Plans.{PlansAny};

use items::Signal;
use plan::Planner;
use plan::words::COMMA;

// A comma and a newline, if each part is to end so.
pub fn plan_end(planner: &mut Planner, ended: bool)
    ensures { PlansAny planner (when ended (lit "," ⨟ say newline)) }
{
    if !ended {
        return;
    }
    planner.plan_word(COMMA);
    planner.plan_signal(Signal::NewLine);
}

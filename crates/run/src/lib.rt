// The run of a campus under the name that C knows, which `run_c` exports.

#![tactic(auto)]

ghost use Rattle.campus.specs.Done.{CampusDone};

use campus::Outcome;

pub fn campus_run(description: &[u8], trace: &mut [u8]) -> Outcome
    ensures { CampusDone description.now trace.old trace.new result.code result.count }
{
    campus::campus_run(description, trace)
}

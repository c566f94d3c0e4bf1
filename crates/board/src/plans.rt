// A small plan for the bench, for C, Rust and Python to ask for by its number.
ghost use Rattle.board.specs.Told.{SmallPlanTold};

use crate::answers::CallAnswer;
use small_plans::small_plan;

// The plan is written as text, its length is the detail at number 0.
#[unsafe(no_mangle)]
pub extern "C" fn conductor_lent_small_plan(number: usize, buf: &mut [u8]) -> CallAnswer
    ensures { SmallPlanTold number buf.old buf.new result }
{
    let reply = small_plan(number, buf);
    CallAnswer::from(reply)
}

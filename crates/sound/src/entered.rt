// Whether a drone has entered a stop.
ghost use Rattle.std.specs.Prelude.{◌≡◌};
ghost use Rattle.sound.specs.Parts.{entered_by};

use tables::flags::is_under_way;

// Whether a drone has visited stop k or is under way to it.
#[tactic(auto, unfolding(crate::specs::Parts::entered_by))]
pub fn has_entered(place: u16, flag: u8, k: u16) -> bool
    ensures { result ≡ entered_by place flag k }
{
    k <= place || is_under_way(flag) && k - place == 1
}

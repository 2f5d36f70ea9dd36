// The values that fields may have.
ghost use Rattle.std.specs.Prelude.{◌≡◌};
ghost use Rattle.telegram.specs.Values.{good_idle, good_type, listed_reason, good_dual_bus};

// Whether an idle time is 0 or a multiple of 100 in 100..65500.
#[tactic(auto, using(ground::specs::Choice::tests), unfolding(crate::specs::Values::good_idle))]
pub fn good_idle(time: u32) -> bool
    ensures { result ≡ good_idle time }
{
    time <= 65500 && time % 100 == 0
}

// Whether a disconnect's type is 0, final, or 1, not final. It is asked of the number that a caller or a telegram gives.
#[tactic(auto, using(ground::specs::Choice::tests), unfolding(crate::specs::Values::good_type))]
pub fn good_type(new_setup: u32) -> bool
    ensures { result ≡ good_type new_setup }
{
    new_setup <= 1
}

// Whether 5.2.5.9 lists a disconnect's reason.
#[tactic(auto, using(ground::specs::Choice::tests), unfolding(crate::specs::Values::listed_reason))]
pub fn listed_reason(reason: u32) -> bool
    ensures { result ≡ listed_reason reason }
{
    matches!(reason, 0x00..=0x07 | 0x1F..=0x40)
}

// Whether a dual bus byte is one that has a meaning.
#[tactic(auto, using(ground::specs::Choice::tests), unfolding(crate::specs::Values::good_dual_bus))]
pub fn good_dual_bus(bus: u32) -> bool
    ensures { result ≡ good_dual_bus bus }
{
    bus <= 1
}

// The check of a figure that a domain is made from.
ghost use Rattle.std.specs.Prelude.{◌≡◌, MatchResult};
ghost use Rattle.frames.specs.Limits.{Within};

use crate::fault::DomainFault;

// A figure has to lie within its limits, or else it is this fault.
pub fn check_figure(low: u64, figure: u64, high: u64, fault: DomainFault) -> Result<(), DomainFault>
    ensures { MatchResult result (λ _. Within low figure high) (λ e. (e ≡ fault) × (Within low figure high → ⊥)) }
{
    if !(low..=high).contains(&figure) {
        return Err(fault);
    }
    Ok(())
}

ghost use Rattle.std.specs.Prelude.{◌≡◌};
ghost use Rattle.model.specs.Stated.{stop_refusal};

use crate::answers::{Place, Refusal, Stop};

// The refusal that a stop of the programs' reversing is.
pub fn stop_refusal(stop: Stop) -> Refusal
    ensures { result ≡ stop_refusal stop }
{
    match stop {
        Stop::Budget => Refusal::AllowanceUsed(Place::Programs),
        Stop::Room => Refusal::WorkspaceShort(Place::Programs),
    }
}

//! The names of refusals.

ghost use Rattle.std.specs.Prelude.{◌≡◌};
ghost use Rattle.gn_numbers.specs.Names.{refusal_name};

use gn_rules::Refusal;

/// The name of a refusal.
pub fn refusal_name(refusal: Refusal) -> &'static str
    ensures { result.now ≡ refusal_name refusal }
{
    match refusal {
        Refusal::HistoryFull => "HistoryFull",
        Refusal::NotLive => "NotLive",
        Refusal::NoTicket => "NoTicket",
        Refusal::Strange => "Strange",
        Refusal::NothingWaiting => "NothingWaiting",
        Refusal::BadOrigin => "BadOrigin",
        Refusal::Remembered => "Remembered",
        Refusal::NoMemory => "NoMemory",
    }
}

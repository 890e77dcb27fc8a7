// Live pacing by itself. Its kept state is passed as it is in a host's sender (`FlatPacing`).
ghost use Rattle.std.specs.Prelude.{◌≡◌};
ghost use Rattle.compare_entries.specs.PacingAnswers.{pacing_new, pacing_on_input};

use compare_entries::of_pacing::PacingAnswer;
use host_structs::pacings::FlatPacing;

// Pacing of a new sender.
#[unsafe(no_mangle)]
pub extern "C" fn compare_pacing_new(mode: u32, rate: u64, overhead: u64) -> PacingAnswer
    ensures { result ≡ pacing_new mode rate overhead }
{
    compare_entries::of_pacing::compare_pacing_new(mode, rate, overhead)
}

// Packets and payload bytes that come in at `now`.
#[unsafe(no_mangle)]
pub extern "C" fn compare_pacing_on_input(
    pacing: FlatPacing,
    now: u64,
    packets: u64,
    bytes: u64,
) -> PacingAnswer
    ensures { result ≡ pacing_on_input pacing now packets bytes }
{
    compare_entries::of_pacing::compare_pacing_on_input(pacing, now, packets, bytes)
}

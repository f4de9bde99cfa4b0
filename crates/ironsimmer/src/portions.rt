// The state of a frame in portions, in the arrays that C lends. Whole arrays are put in place: a refused call then cannot have written a part.
ghost use Rattle.std.specs.Prelude.{◌≡◌};
ghost use Rattle.ironsimmer.specs.Exported.{state_of, StatePut};

use frame_portions::Progress;
use refusals::Parameter;

pub(crate) fn state_of(progress: &[u32; 2], rows: &[[u8; 32]; 8]) -> Progress
    ensures { result ≡ state_of progress.now rows.now }
{
    Progress {
        place: progress[0],
        closed: progress[1] != 0,
        rows: *rows,
    }
}

// An accepted call's state; or the refusal's number.
pub(crate) fn put(
    verdict: Result<(), Parameter>,
    state: Progress,
    progress: &mut [u32; 2],
    rows: &mut [[u8; 32]; 8],
) -> u64
    ensures { StatePut verdict state progress.old rows.old result progress.new rows.new }
{
    if verdict.is_ok() {
        *progress = [state.place, u32::from(state.closed)];
        let held = state.rows;
        *rows = held;
    }
    refusals::verdict_number(verdict)
}

// The coder's state and its count of symbols, in what C lends. The whole state is put in place: a refused call then cannot have written a part.
ghost use Rattle.std.specs.Prelude.{◌≡◌};
ghost use Rattle.ironsimmer.specs.Exported.{coder_of, CountPut, RanPut};

use crate::codes::code_of;
use convolution::State;
use refusals::Parameter;

pub(crate) fn state_of(octets: &[u8; 4]) -> State
    ensures { result ≡ coder_of octets.now }
{
    State {
        register: octets[0],
        place: octets[1],
        holds: octets[2],
        held: octets[3],
    }
}

// The count of an accepted call; or the refusal's number.
pub(crate) fn put_count(answer: Result<u32, Parameter>, count: &mut u32) -> u64
    ensures { CountPut answer count.old result count.new }
{
    match answer {
        Ok(number) => {
            *count = number;
            0
        }
        Err(parameter) => code_of(parameter),
    }
}

// So with the state that comes with it.
pub(crate) fn put(
    answer: Result<u32, Parameter>,
    next: State,
    octets: &mut [u8; 4],
    count: &mut u32,
) -> u64
    ensures { RanPut answer next octets.old count.old result octets.new count.new }
{
    if answer.is_ok() {
        *octets = [next.register, next.place, next.holds, next.held];
    }
    put_count(answer, count)
}

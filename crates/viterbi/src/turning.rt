// Registers turned round.
ghost use Rattle.std.specs.Prelude.{◌≡◌, ◌<◌};
ghost use Rattle.viterbi.specs.Working as working;

// The place of a register in a column: its six bits in the other order.
pub(crate) fn turned(register: u8) -> usize
    ensures { (result ≡ working.turned register) × (result < 64) }
{
    usize::from(register.reverse_bits() >> 2)
}

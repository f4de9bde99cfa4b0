// Symbols into octets and out of them.
ghost use Rattle.std.specs.Prelude.{◌≡◌, ◌⊎◌, ◌++◌, ◌+◌, ◌/◌, ◌%◌, ◌^◌, ◌≤◌, ◌<◌, length, take};
ghost use Rattle.convolution.specs.Coder.{low_bits, first_octet};
ghost use Rattle.convolution.specs.Working.{Ready, Kept};
ghost use Rattle.convolution.specs.GroupWorking.{Put};

use crate::Flow;

// The octet that stands above so many of the symbols.
fn octet_above(symbols: u32, below: usize) -> u8
    requires { below < 32 }
    ensures { result ≡ symbols / 2 ^ below % 256 }
{
    ((symbols >> below) % 256) as u8
}

// Writes out the whole octets among the held symbols, none, one or two, the first at `at`. No `for` over them: with it rate 1/2 with symbols held took
// 2.6 times as long.
pub(crate) fn write_ready(symbols: &mut [u8], at: usize, held: u32, holds: usize)
    requires { (holds ≤ 23) × (at + holds / 8 ≤ length symbols.old) }
    ensures { Ready symbols.old at held holds symbols.new }
{
    if holds < 8 {
        return;
    }
    symbols[at] = octet_above(held, holds - 8);
    if holds < 16 {
        return;
    }
    symbols[at + 1] = octet_above(held, holds - 16);
}

// The lowest octets of a number, the first at `at`.
fn write_number(symbols: &mut [u8], at: usize, number: u64, n: usize)
    requires { (n ≤ 8) × (at + n ≤ length symbols.old) }
    ensures { Put symbols.old at number n symbols.new }
{
    symbols[at..at + n].copy_from_slice(&number.to_be_bytes()[8 - n..]);
}

// The numbers that can be are told apart, so that each is written in one piece: with the number left open the punctured rates took 8 % longer.
pub(crate) fn write_group(symbols: &mut [u8], at: usize, number: u64, n: usize)
    requires { ((n ≡ 6) ⊎ (n ≡ 8)) × (at + n ≤ length symbols.old) }
    ensures { Put symbols.old at number n symbols.new }
{
    if n == 6 {
        write_number(symbols, at, number, 6);
        return;
    }
    write_number(symbols, at, number, 8);
}

// So many symbols that go out, the held ones first: as many of the new ones then stay held.
pub(crate) fn behind_held(held: u32, holds: usize, symbols: u64, n: usize) -> u64
    requires { (holds < 8) × (8 ≤ n) × (n ≤ 64) × (symbols < 2 ^ n) }
    ensures { low_bits n result ++ low_bits holds symbols ≡ low_bits holds held ++ low_bits n symbols }
{
    if holds == 0 {
        return symbols;
    }
    (u64::from(held) << (n - holds)) + (symbols >> holds)
}

// What stays held once the whole octets are out. The remainder keeps `held` small for the next octet.
pub(crate) fn kept(state: Flow) -> Flow
    ensures { Kept state result }
{
    Flow {
        register: state.register,
        place: state.place,
        held: state.held % 128,
        holds: state.holds % 8,
    }
}

// So many symbols at the top of an octet, zeros below them.
pub(crate) fn last_octet(held: u32, holds: usize) -> u8
    requires { (held < 128) × (holds < 8) }
    ensures { result ≡ first_octet (low_bits holds held) }
{
    ((held << (8 - holds)) % 256) as u8
}

// The symbols at the top of an octet as a number, the newest lowest.
pub(crate) fn top_bits(octet: u8, n: usize) -> u32
    requires { n < 8 }
    ensures { (low_bits n result ≡ take n (low_bits 8 octet)) × (result < 128) }
{
    u32::from(octet) >> (8 - n)
}

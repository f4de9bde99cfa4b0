// A word's symbols and errors, from line octets to conventional octets and back.
ghost use Rattle.std.specs.Prelude.{◌≡◌, map, ◌≤◌, length};
ghost use Rattle.field.specs.Line.{to_line};
ghost use Rattle.words.specs.Working.{Filled, conventional_at};

use std::array;

pub(crate) fn conventional(sent: &[u8]) -> [u8; 255]
    requires { length sent.now ≤ 255 }
    ensures { Filled (conventional_at sent.now) 255 result (length sent.now) }
{
    let mut out: [u8; 255] = [0; 255];
    // `out` by the number: what `iter_mut().zip` leaves is unknown to a proof.
    for (i, symbol) in sent.iter().enumerate() {
        out[i] = field::to_conventional(*symbol);
    }
    out
}

// Zero is zero in both: only the few errors are converted.
fn line_octet(error: u8) -> u8
    ensures { result ≡ to_line error }
{
    if error == 0 {
        return 0;
    }
    field::to_line(error)
}

pub(crate) fn on_line(errors: &[u8; 255]) -> [u8; 255]
    ensures { result ≡ map to_line errors.now }
{
    array::from_fn(|i| line_octet(errors[i]))
}

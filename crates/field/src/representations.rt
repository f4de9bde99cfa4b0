// Line octets and conventional octets.
ghost use Rattle.std.specs.Prelude.{◌≡◌};
ghost use Rattle.field.specs.Line.{times_matrix, to_line, to_conventional};

static LINE_ROWS: [u8; 8] = [0x8D, 0xEF, 0xEC, 0x86, 0xFA, 0x99, 0xAF, 0x7B];

static CONVENTIONAL_ROWS: [u8; 8] = [0xC5, 0x42, 0x2E, 0xFD, 0xF0, 0x79, 0xAC, 0xCC];

// The sum of the rows whose bit is set, the first row for the top bit.
fn times_matrix(rows: &[u8; 8], octet: u8) -> u8
    ensures { result ≡ times_matrix rows.now octet }
{
    let mut sum: u8 = 0;
    for (bit, row) in rows.iter().enumerate() {
        if (octet >> (7 - bit)) % 2 == 1 {
            sum ^= *row;
        }
    }
    sum
}

#[tactic(auto, unfolding(crate::specs::Line::to_line))]
pub fn to_line(octet: u8) -> u8
    ensures { result ≡ to_line octet }
{
    times_matrix(&LINE_ROWS, octet)
}

#[tactic(auto, unfolding(crate::specs::Line::to_conventional))]
pub fn to_conventional(octet: u8) -> u8
    ensures { result ≡ to_conventional octet }
{
    times_matrix(&CONVENTIONAL_ROWS, octet)
}

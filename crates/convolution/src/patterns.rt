// The puncture patterns and the periods of the five rates.
ghost use Rattle.std.specs.Prelude.{◌≡◌};
ghost use Rattle.std.proofs.Props.{props};
ghost use Rattle.refusals.specs.Order.{OneOf};
ghost use Rattle.refusals.specs.Sizes.{rates};
ghost use Rattle.convolution.specs.Working.{Rows};

// A row for each rate from 1/2 on: by the place in the period, whether C1 is sent of each of eight bits from there on, the first at the top.
// A period shorter than the row leaves its end unused. C2 is sent where C1 is not, and at the first place of each period.
static C1_SENT: [[u8; 7]; 5] = [
    [255, 0, 0, 0, 0, 0, 0],
    [170, 85, 0, 0, 0, 0, 0],
    [182, 109, 219, 0, 0, 0, 0],
    [173, 90, 181, 107, 214, 0, 0],
    [139, 22, 44, 88, 177, 98, 197],
];

static PERIODS: [usize; 5] = [1, 2, 3, 5, 7];

// What a legal rate sends: its period, and its row of the table.
#[derive(Clone, Copy)]
pub(crate) struct Pattern {
    pub(crate) rate: u32,
    pub(crate) period: usize,
    pub(crate) c1: [u8; 7],
    ghost rows: { Rows rate period c1 } by { Prim.hlevel props },
}

impl Pattern {
    pub(crate) fn of(rate: u32) -> Pattern
        requires { OneOf rates rate }
        ensures { result.rate ≡ rate }
    {
        let row = (rate - 1) as usize;
        Pattern {
            rate,
            period: PERIODS[row],
            c1: C1_SENT[row],
        }
    }
}

// What an accepted call reports, in the arrays that C lends. A whole array is put in place at once: a refused call then cannot have written a part.
ghost use Rattle.std.specs.Prelude.{◌≡◌, [], ◌∷◌, ◌++◌, ◌+◌, ◌<◌, length, get_or};
ghost use Rattle.ironsimmer.specs.Exported.{salvage_listed, Reported};

use crate::codes::{code_of, form_number};
use marker::Searched;
use refusals::Parameter;
use std::array;

fn listed_at(octets: &[u8; 8], rest: &[u32], at: usize) -> u32
    requires { at < 8 + length rest.now }
    ensures { result ≡ get_or (octets.now ++ rest.now) at 0 }
{
    if at < 8 {
        u32::from(octets[at])
    } else {
        rest[at - 8]
    }
}

// The octets of eight words as numbers, then the rest.
fn listed<const N: usize>(octets: &[u8; 8], rest: &[u32]) -> [u32; N]
    requires { N ≡ 8 + length rest.now }
    ensures { result ≡ octets.now ++ rest.now }
{
    array::from_fn(|at| listed_at(octets, rest, at))
}

// The counts of eight words, then the total.
pub(crate) fn report_of(counts: &[u8; 8], total: u32) -> [u32; 9]
    ensures { result ≡ counts.now ++ (total ∷ []) }
{
    listed(counts, &[total])
}

// The counts of eight words, the total, then whether the block was inverted.
pub(crate) fn reception_of(counts: &[u8; 8], total: u32, inverted: u32) -> [u32; 10]
    ensures { result ≡ counts.now ++ (total ∷ inverted ∷ []) }
{
    listed(counts, &[total, inverted])
}

// The marks of eight words, their counts, then the number of entries in the list.
pub(crate) fn salvage_of(marks: &[u8; 8], counts: &[u8; 8], entries: u32) -> [u32; 17]
    ensures { result ≡ salvage_listed marks.now counts.now entries }
{
    listed(marks, &report_of(counts, entries))
}

// The kind of an answer, 1 found, 2 absent, 3 spent, with its place, wrong bits, places looked at and form; or the refusal's number.
pub(crate) fn put_search(answer: Result<Searched, Parameter>, found: &mut [u64; 5]) -> u64
    ensures { Reported answer found.old result found.new }
{
    let seen = match answer {
        Ok(seen) => seen,
        Err(parameter) => return code_of(parameter),
    };
    *found = match seen {
        Searched::Found {
            place,
            form,
            wrong,
            looked,
        } => [
            1,
            place,
            u64::from(wrong),
            looked,
            u64::from(form_number(form)),
        ],
        Searched::Absent { looked } => [2, 0, 0, looked, 0],
        Searched::Spent { place, looked } => [3, place, 0, looked, 0],
    };
    0
}

// Refusals as one number: the refusal's number, and 256 times its value; the forms of the marker as numbers.
ghost use Rattle.std.specs.Prelude.{◌≡◌};
ghost use Rattle.ironsimmer.specs.Exported.{code, form_number};

use marker::Form;
use refusals::Refusal;

pub(crate) fn code_of<R: Refusal + Copy>(refusal: R) -> u64
    ensures { result ≡ code (R.number_of refusal) (R.value_of refusal) }
{
    u64::from(refusal.number()) + 256 * u64::from(refusal.value())
}

// The numbers that C has for them; the marker has none.
pub(crate) fn form_number(form: Form) -> u32
    ensures { result ≡ form_number form }
{
    match form {
        Form::True => 1,
        Form::Complement => 2,
    }
}

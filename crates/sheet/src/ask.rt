ghost use Rattle.std.specs.Prelude.{◌≡◌, Ok};
ghost use Rattle.promise.specs.Calls.{ask as ask_of};

use promise::outcome::Refusal;

/// A question, and why the call is refused where the answer is no.
pub(crate) fn ask(test: bool, refusal: Refusal) -> Result<(), Refusal>
    ensures { result ≡ ask_of test refusal (Ok tt) }
{
    test.then_some(()).ok_or(refusal)
}

ghost use Rattle.std.specs.Prelude.{◌≡◌};
ghost use Rattle.cc_shared.specs.OneAnswer.{OneRunDecides};
ghost use Rattle.sharing_check.specs.Sharing as spec;
ghost use Rattle.sharing_check.specs.declared.answer.Sharing.TheVariants.{Determinate};

use crate::answer::{Sharing, sharing_of};
use cc_types::Checked;

/// The answer for a program: `Determinate` exactly where it breaks no rule of sharing, and else the broken rule that stands first. One run
/// of a determinate program that comes to rest decides every run of it from the same ints. It takes no memory.
pub fn sharing(checked: &Checked) -> Sharing
    ensures answer { result ≡ spec.sharing checked.now }
    ensures one_answer { result ≡ Determinate → OneRunDecides checked.now }
{
    sharing_of(checked.shared())
}

ghost use Rattle.std.specs.Prelude.{◌≡◌};
ghost use Rattle.laws.specs.Items.{kept_first};

use steps::{Answer, Fault};

/// The first fault of a run, one answer further.
pub fn keep_first<T: Drop>(met: Option<Fault>, answer: Result<Answer<T>, Fault>) -> Option<Fault>
    ensures { result ≡ kept_first met answer }
{
    met.or(answer.err())
}

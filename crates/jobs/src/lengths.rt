ghost use Rattle.std.specs.Prelude.{◌≡◌, ◌+◌, ◌*◌, ◌≤◌, length};
ghost use Rattle.row_laws.specs.Calls.{at_front};
ghost use Rattle.jobs.specs.Job.{words};

use sources::word_of;

// Writes the numbers that stand in some bytes, two bytes each, to the front of a lent list, and
// tells how many they are.
pub(crate) fn write_words(bytes: &[u8], numbers: &mut [usize]) -> usize
    requires room { length bytes.now ≤ 2 * length numbers.old }
    ensures count { result ≡ length (words bytes.now) }
    ensures writes { numbers.new ≡ at_front (words bytes.now) numbers.old }
{
    let mut count = 0;
    let mut rest = bytes;
    while let [low, high, others @ ..] = rest {
        numbers[count] = usize::from(word_of(*low, *high));
        count += 1;
        rest = others;
    }
    count
}

// The part of a fact that clashes with an earlier one.
ghost use Rattle.std.specs.Prelude.{◌≡◌, ◌<◌, length, get_or};
ghost use Rattle.texts.specs.Place.{Countable};
ghost use Rattle.fields.specs.Parts.{fact_place};

use texts::place::{Place, along, with_len};
use texts::places::number_at;

// Where fact k of the candidate stands in the output, by its line and by the tables of all facts' starts and lengths.
pub fn fact_part(line: Place, starts: &[u32], lengths: &[u32], k: usize) -> Place
    requires { (k < length starts.now) × (k < length lengths.now) × Countable line (get_or starts.now k 0) }
    ensures { result ≡ fact_place line starts.now lengths.now k }
{
    let start = along(line, number_at(starts, k));
    with_len(start, number_at(lengths, k))
}

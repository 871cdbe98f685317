// A queue in which every fact has its place.
ghost use Rattle.std.specs.Prelude.{◌≡◌, suc, length};
ghost use Rattle.queue.specs.Queue.{Fresh};
ghost use Rattle.search.specs.Searched.{AllTaken};

// Each fact's place is its number; the place behind the facts stays free.
pub fn take_all(when: &mut [u16], queue: &mut [u16], count: usize)
    requires { Fresh when.old queue.old × (length when.old ≡ suc count) }
    ensures { AllTaken count when.new queue.new }
{
    for a in 0..count {
        when[a] = a as u16;
        queue[a] = a as u16;
    }
}

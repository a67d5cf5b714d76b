// The samples that come next in a file of samples: by tick, then carrier.
ghost use Rattle.std.specs.Prelude.{◌≡◌, ℕ, List, ◌+◌, ◌<◌, ◌≤◌, ◌^◌, length, replicate, MatchOption};
ghost use Rattle.plan_checker.specs.Run.{samples_due};
ghost use Rattle.link_run_send.specs.ComesNext.{ComesLater, ComesNext, HandedTo, IsFirstDue};

use plan_checker::Checked;
use sample_bits::RawIq;

/// The most samples of a carrier that are due at a tick.
const MOST: usize = 32;

/// The carrier whose samples come next, and those that have come.
#[derive(Clone, Copy, Debug)]
pub struct Due {
    /// The tick at which they are due, or the length of the run where all samples have come.
    pub tick: u64,
    pub carrier: usize,
    /// How many are due.
    pub count: usize,
    /// How many have come.
    pub come: usize,
    pub samples: [RawIq; MOST],
}

// The first carrier from this one on that has samples due at a tick, and how many.
fn due_from(checked: &Checked, tick: u64, first: usize) -> Option<(usize, usize)>
    requires { tick ≤ 2 ^ 40 }
    ensures { MatchOption result ((c : ℕ) → first ≤ c → c < length checked.now.carriers → samples_due checked.now c tick ≡ 0) (λ found. IsFirstDue checked.now tick first found.0 found.1) }
{
    for c in first..checked.plan().carriers.len() {
        let count = checked.due(c, tick);
        if count > 0 {
            return Some((c, count as usize));
        }
    }
    None
}

impl Due {
    /// Before the first sample of a run of so many ticks.
    pub fn begin(checked: &Checked, run_ticks: u64) -> Due
        requires { run_ticks ≤ 2 ^ 40 }
        ensures next { ComesNext checked.now run_ticks result }
        ensures none { result.come ≡ 0 }
        ensures handed { HandedTo checked.now (replicate (length checked.now.carriers) 0) result.tick result.carrier }
    {
        let mut due = Due {
            tick: 0,
            carrier: 0,
            count: 0,
            come: 0,
            samples: [RawIq { i: 0, q: 0 }; MOST],
        };
        due.find(checked, run_ticks);
        due
    }

    // Finds the first carrier that has samples due, from the present one on.
    fn find(&mut self, checked: &Checked, run_ticks: u64)
        requires run { run_ticks ≤ 2 ^ 40 }
        requires within { self.old.tick ≤ run_ticks }
        requires carrier { self.old.tick ≡ run_ticks → self.old.carrier ≡ 0 }
        requires none { self.old.come ≡ 0 }
        requires few { self.old.count ≤ 32 }
        ensures next { ComesNext checked.now run_ticks self.new }
        ensures none { self.new.come ≡ 0 }
        ensures later { self.old.tick ≤ self.new.tick }
        ensures carrier { self.new.tick ≡ self.old.tick → self.old.carrier ≤ self.new.carrier }
        ensures handed { (handed : List ℕ) → HandedTo checked.now handed self.old.tick self.old.carrier → HandedTo checked.now handed self.new.tick self.new.carrier }
    {
        while self.tick < run_ticks {
            if let Some((carrier, count)) = due_from(checked, self.tick, self.carrier) {
                self.carrier = carrier;
                self.count = count;
                return;
            }
            self.tick += 1;
            self.carrier = 0;
        }
    }

    /// Goes on to the samples that come after those of the present carrier.
    pub fn next(&mut self, checked: &Checked, run_ticks: u64)
        requires run { run_ticks ≤ 2 ^ 40 }
        requires within { self.old.tick < run_ticks }
        requires carrier { self.old.carrier < length checked.now.carriers }
        requires few { self.old.count ≤ 32 }
        ensures { (handed : List ℕ) → HandedTo checked.now handed self.old.tick (self.old.carrier + 1) → ComesLater checked.now run_ticks handed self.old self.new }
    {
        let carriers = checked.plan().carriers.len();
        // The plan has few carriers, so the place after each of them is a number too.
        prove!(self.carrier < carriers);
        self.come = 0;
        self.carrier += 1;
        self.find(checked, run_ticks);
    }
}

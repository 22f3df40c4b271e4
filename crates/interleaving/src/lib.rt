// The search over the interleavings of the desks' strips: its states and one step of it (in the literature: the differentiation flowshop, two stages with one
// common machine, the scanner, and then dedicated machines, the desks, for the sum of weighted completion times). The section is one list of numbers, `jobs`:
// strips of each desk, then scan times, desk times and weights, six to a desk (specs/Instance.antt). Desks and strips are counted from 0.
#![tactic(auto)]

ghost use Rattle.std.specs.Prelude.{◌≡◌, ◌+◌, ◌*◌, ◌<◌, get_or, length, ltb};
ghost use Rattle.interleaving.specs.Instance.{Instance, instance_length, scan_of, desk_of, weight_of};
ghost use Rattle.interleaving.specs.Search.{step_of, keep, start_state};
ghost use Rattle.interleaving.specs.Caps.{StepPre};

pub mod caps;

// Strips left, the time at which the scanner is free, the cost so far, the scanner list as a number in base 4 with the desks' numbers
// as digits, and for each desk the time at which it is free and the strips taken.
#[derive(Clone, Copy)]
pub struct State {
    pub left: usize,
    pub time: u64,
    pub cost: u64,
    pub path: u64,
    pub free: [u64; 3],
    pub taken: [usize; 3],
}

// The best complete list so far.
#[derive(Clone, Copy)]
pub struct Incumbent {
    pub figure: u64,
    pub path: u64,
}

// The scan time of strip i of desk d.
pub fn scan_time(jobs: &[u64], d: usize, i: usize) -> u64
    requires { (length jobs.now ≡ instance_length) × (d < 3) × (i < 6) }
    ensures { result ≡ scan_of jobs.now d i }
{
    jobs[3 + (d * 6 + i)]
}

// The desk time of strip i of desk d.
pub fn desk_time(jobs: &[u64], d: usize, i: usize) -> u64
    requires { (length jobs.now ≡ instance_length) × (d < 3) × (i < 6) }
    ensures { result ≡ desk_of jobs.now d i }
{
    jobs[3 + (d * 6 + i) + 18]
}

// The weight of strip i of desk d.
pub fn weight(jobs: &[u64], d: usize, i: usize) -> u64
    requires { (length jobs.now ≡ instance_length) × (d < 3) × (i < 6) }
    ensures { result ≡ weight_of jobs.now d i }
{
    jobs[3 + (d * 6 + i) + 36]
}

// Whether desk d has a strip left.
pub fn strip_left(jobs: &[u64], s: State, d: usize) -> bool
    requires { Instance jobs.now × (d < 3) }
    ensures { result ≡ ltb (get_or s.taken d 0) (get_or jobs.now d 0) }
{
    (s.taken[d] as u64) < jobs[d]
}

// The state after the next strip of desk d is scanned and done, each as early as it can be.
#[tactic(auto, using(crate::proofs::CapLaws::step_pre_capped), unfolding(crate::specs::Search::step_of))]
pub fn step(jobs: &[u64], mut s: State, d: usize) -> State
    requires { StepPre jobs.now s d }
    ensures { result ≡ step_of jobs.now s d }
{
    let i = s.taken[d];
    let scanned = s.time + scan_time(jobs, d, i);
    let done = s.free[d].max(scanned) + desk_time(jobs, d, i);
    s.left -= 1;
    s.time = scanned;
    s.cost += weight(jobs, d, i) * done;
    s.path = s.path * 4 + (d as u64) + 1;
    s.free[d] = done;
    s.taken[d] = i + 1;
    s
}

// The better of an incumbent and a complete state: the incumbent where they are equal.
#[tactic(auto, unfolding(crate::specs::Search::keep))]
pub fn keep_better(s: State, b: Incumbent) -> Incumbent
    ensures { result ≡ keep s b }
{
    let found = Incumbent {
        figure: s.cost,
        path: s.path,
    };
    if s.cost < b.figure { found } else { b }
}

#[tactic(auto, using(crate::proofs::Consistent::start_sum), unfolding(crate::specs::Search::start_state))]
pub fn start_state(jobs: &[u64]) -> State
    requires { Instance jobs.now }
    ensures { result ≡ start_state jobs.now }
{
    State {
        left: (jobs[0] + jobs[1] + jobs[2]) as usize,
        time: 0,
        cost: 0,
        path: 0,
        free: [0; 3],
        taken: [0; 3],
    }
}

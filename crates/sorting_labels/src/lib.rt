// The dominance memory: four labels to each count vector, at the front of the working table.
#![tactic(auto)]

ghost use Rattle.std.specs.Prelude.{◌≡◌, ◌+◌, ◌<◌, length};
ghost use Rattle.interleaving.specs.Instance.{Instance};
ghost use Rattle.interleaving.specs.Consistent.{Consistent};
ghost use Rattle.sorting_labels.specs.Labels.{label_dominates, dominated_by, store_label, costliest, with_label, no_labels_to};
ghost use Rattle.sorting_bounds.specs.Layout.{count_key, labels_length};
ghost use Rattle.sheet.specs.Limits.{table_length};

use interleaving::State;
use sorting_bounds::LABELS_LENGTH;

// A number that no label has.
const NO_LABEL: u64 = u64::MAX;

// The number of the count vector of s.
#[tactic(auto, using(sorting_bounds::specs::Layout::key_digits))]
pub fn count_key(jobs: &[u64], s: State) -> usize
    requires { Instance jobs.now × Consistent jobs.now s }
    ensures { (result ≡ count_key s) × (result < 343) }
{
    (s.taken[0] * 7 + s.taken[1]) * 7 + s.taken[2]
}

// Whether the label at a dominates s.
#[tactic(auto, unfolding(crate::specs::Labels::label_dominates))]
fn label_dominates(s: State, m: &[u64], a: usize) -> bool
    requires { a + 3 < length m.now }
    ensures { result ≡ label_dominates m.now a s }
{
    m[a] <= s.cost && m[a + 1] <= s.free[0] && m[a + 2] <= s.free[1] && m[a + 3] <= s.free[2]
}

// Whether one of the four labels of the count vector k dominates s.
pub fn dominated(s: State, k: usize, m: &[u64]) -> bool
    requires { (k < 343) × (length m.now ≡ table_length) }
    ensures { result ≡ dominated_by m.now k s 4 }
{
    for j in 0..4 {
        if label_dominates(s, m, (k * 4 + j) * 4) {
            return true;
        }
    }
    false
}

// The first label of the count vector k that has the largest cost: the next one stored takes its place.
fn costliest_label(m: &[u64], k: usize) -> usize
    requires { (k < 343) × (length m.now ≡ table_length) }
    ensures { (result ≡ costliest m.now k) × (result < 4) }
{
    let mut costliest: usize = 0;
    for j in 1..4 {
        if m[(k * 4 + costliest) * 4] < m[(k * 4 + j) * 4] {
            costliest = j;
        }
    }
    costliest
}

fn write_label(s: State, m: &mut [u64], a: usize)
    requires { a + 3 < length m.old }
    ensures { m.new ≡ store_label m.old a s }
{
    m[a] = s.cost;
    m[a + 1] = s.free[0];
    m[a + 2] = s.free[1];
    m[a + 3] = s.free[2];
}

// Stores the label of s, whose count vector has the number k.
pub fn store_label(s: State, k: usize, m: &mut [u64])
    requires { (k < 343) × (length m.old ≡ table_length) }
    ensures { m.new ≡ with_label m.old k s }
{
    let j = costliest_label(m, k);
    write_label(s, m, (k * 4 + j) * 4);
}

// No label at any count vector.
pub fn clear_labels(m: &mut [u64])
    requires { length m.old ≡ table_length }
    ensures { m.new ≡ no_labels_to labels_length m.old }
{
    m[..LABELS_LENGTH].fill(NO_LABEL);
}

// What the tables are filled from.
ghost use Rattle.batching.specs.Input.{Input};

// The strips that are batched, as the tables read them (in the literature: an instance, whose jobs they are).
#[derive(Clone, Copy)]
pub struct Strips<'a> {
    // When strip q is ready (its release date), at q - 1.
    pub ready: &'a [u64],
    // The bench times (processing times) of the first q strips, added up, at q.
    pub bench_sums: &'a [u64],
    // Their weights, added up alike.
    pub weight_sums: &'a [u64],
    // How long a mount takes (the setup time of a batch).
    pub mount: u64,
    pub count: usize,
    ghost input: { Input ready.now bench_sums.now weight_sums.now mount count },
}

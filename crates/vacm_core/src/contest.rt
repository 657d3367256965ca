//! The row of a table that decides: it passes a test, and no row that passes beats it.
ghost use Rattle.std.specs.Prelude.{◌≡◌, ◌<◌, ◌&&◌, length};
ghost use Rattle.std.specs.Option.{ForSome};
ghost use Rattle.vacm_core.specs.Best.{takes_over, unbeaten};

/// What decides among the rows of a table: which of them pass, and which beats which.
pub trait Contest {
    ghost use Rattle.std.specs.Prelude.{Bool};
    ghost use Rattle.std.specs.Cmp.{IsStrictWeakOrder};

    /// A row of the table.
    type Row;

    // Which rows pass.
    ghost passes: { Self → Self.Row → Bool };

    // Which row beats which.
    ghost beats: { Self → Self.Row → Self.Row → Bool };

    /// Whether a row passes.
    fn passes(&self, row: &Self::Row) -> bool
        ensures { result ≡ passes self.now row.now };

    /// Whether a row beats another.
    fn beats(&self, row: &Self::Row, other: &Self::Row) -> bool
        ensures { result ≡ beats self.now row.now other.now };

    // To beat is to come before in an order, in which rows may tie.
    ghost ranks: { (contest : Self) → IsStrictWeakOrder (beats contest) };
}

/// Whether a row that passes takes the place of the best so far.
pub fn takes_over<C: Contest>(
    contest: &C,
    rows: &[C::Row],
    best: Option<usize>,
    row: &C::Row,
) -> bool
    requires { ForSome best (λ b. b < length rows.now) }
    ensures { result ≡ takes_over (C.beats contest.now) rows.now best row.now }
{
    match best {
        Some(best) => contest.beats(row, &rows[best]),
        None => true,
    }
}

// Whether a row is the best with those before it.
fn is_better<C: Contest>(contest: &C, rows: &[C::Row], best: Option<usize>, row: &C::Row) -> bool
    requires { ForSome best (λ b. b < length rows.now) }
    ensures { result ≡ (C.passes contest.now row.now
        && takes_over (C.beats contest.now) rows.now best row.now) }
{
    contest.passes(row) && takes_over(contest, rows, best, row)
}

/// The number of the row that decides, by a scan that keeps the best row so far.
pub fn deciding_row<C: Contest>(contest: &C, rows: &[C::Row]) -> Option<usize>
    ensures place { result ≡ unbeaten (C.passes contest.now) (C.beats contest.now) rows.now }
    ensures within { ForSome result (λ n. n < length rows.now) }
{
    let mut best = None;
    for (n, row) in rows.iter().enumerate() {
        if is_better(contest, rows, best, row) {
            best = Some(n);
        }
    }
    best
}

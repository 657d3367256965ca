//! Laws of the learned addresses and of the static rows. Each function does nothing: its contract is
//! the law.
ghost use Rattle.std.specs.Prelude.{◌≡◌, ◌≢◌, ◌≤◌, ◌+◌, ◌/◌, ◌<◌, ℕ, true, List, length, Some, None};
ghost use Rattle.std.specs.List.{AllByRecursion};
ghost use Rattle.std.specs.declared.cmp.Ordering.TheVariants.{Less};
ghost use Rattle.fdb_core.specs.declared.port_set.PortSet.{PortSet};
ghost use Rattle.fdb_core.specs.declared.static_row.StaticIndex.{StaticIndex};
ghost use Rattle.fdb_core.specs.declared.static_row.StaticRow.{StaticRow};
ghost use Rattle.fdb_core.specs.PortSets.{IsOfPorts, ports_in, octets_of};
ghost use Rattle.fdb_core.specs.Statics.{index_cmp, IsRising, row_of, put_row, without_row, made_rows, next_made, IsMadeAbove};

use crate::port_set::MAX_SET_PORTS;
use crate::row::{MAX_AGING_TIME, MIN_AGING_TIME};

/// Learned addresses age out after 10 to 1,000,000 seconds (IEEE 802.1D-2004, Table 7-5).
pub fn aging_times_are_bounded()
    ensures shortest { MIN_AGING_TIME ≡ 10 }
    ensures longest { MAX_AGING_TIME ≡ 1000000 }
{}

/// A set of ports has at most 32.
pub fn sets_of_ports_are_bounded()
    ensures { MAX_SET_PORTS ≡ 32 }
{}

/// A set of ports is read as it was written, and octets, as many as so many ports need, are written
/// as they were read.
pub fn sets_of_ports_are_read_as_they_were_written()
    ensures ports { (count : ℕ) (s : PortSet) → count ≤ MAX_SET_PORTS → IsOfPorts count s →
        ports_in (octets_of count s) ≡ s }
    ensures octets { (count : ℕ) (octets : List ℕ) → count ≤ MAX_SET_PORTS
        → length octets ≡ (count + 7) / 8 → AllByRecursion (λ o. o < 256) octets
        → octets_of count (ports_in octets) ≡ octets }
{}

/// The static rows are a finite map from indexes to rows: a row that is put is that of its index,
/// one that is removed is none, and each other index has the row that it had. A row that is found
/// is of the index that was sought, and rows in order that agree on each index are the same.
pub fn static_rows_are_a_finite_map()
    ensures put { (rows : List StaticRow) (row : StaticRow) →
        row_of (put_row rows row) row.index ≡ Some row }
    ensures put_others { (rows : List StaticRow) (row : StaticRow) (i : StaticIndex) →
        i ≢ row.index → row_of (put_row rows row) i ≡ row_of rows i }
    ensures removed { (rows : List StaticRow) (i : StaticIndex) →
        row_of (without_row rows i) i ≡ None }
    ensures removed_others { (rows : List StaticRow) (i j : StaticIndex) → j ≢ i →
        row_of (without_row rows i) j ≡ row_of rows j }
    ensures index { (rows : List StaticRow) (i : StaticIndex) (row : StaticRow) →
        row_of rows i ≡ Some row → row.index ≡ i }
    ensures same { (rows others : List StaticRow) → IsRising rows → IsRising others
        → ((i : StaticIndex) → row_of rows i ≡ row_of others i) → rows ≡ others }
{}

/// Static rows stay in order, whatever row is put or removed, and where the rows that are not made
/// go; and then each is made.
pub fn static_rows_stay_in_order()
    ensures put { (rows : List StaticRow) (row : StaticRow) → IsRising rows →
        IsRising (put_row rows row) }
    ensures removed { (rows : List StaticRow) (i : StaticIndex) → IsRising rows →
        IsRising (without_row rows i) }
    ensures made { (rows : List StaticRow) → IsRising rows → IsRising (made_rows rows) }
    ensures are_made { (rows : List StaticRow) →
        AllByRecursion (λ r. r.made ≡ true) (made_rows rows) }
{}

/// The next made row after some numbers is a made row above them, and no made row above them is
/// lower: none lies between. There is none only where no made row is above them.
pub fn next_made_is_the_lowest_above()
    ensures above { (rows : List StaticRow) (numbers : List ℕ) (row : StaticRow) → IsRising rows
        → next_made rows numbers ≡ Some row → IsMadeAbove rows numbers row }
    ensures lowest { (rows : List StaticRow) (numbers : List ℕ) (row other : StaticRow)
        → IsRising rows → next_made rows numbers ≡ Some row → IsMadeAbove rows numbers other
        → index_cmp other.index row.index ≢ Less }
    ensures none { (rows : List StaticRow) (numbers : List ℕ) (row : StaticRow)
        → next_made rows numbers ≡ None → ¬ IsMadeAbove rows numbers row }
{}

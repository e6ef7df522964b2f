//! What the first of the shortest cycles is, and the cycles of pairs, in their own words.

ghost use Rattle.std.specs.Prelude.{◌≡◌, ◌<◌, ◌≢◌, ℕ, Bool, List, [], slice_get, unwrap_or};
ghost use Rattle.std.specs.List.{AllByRecursion, AllPairs};
ghost use Rattle.gp_base.specs.declared.table.Table.{Table};
ghost use Rattle.gp_log.specs.Sessions.{KeepsSessions};
ghost use Rattle.gp_machine.specs.Entries.{Entry};
ghost use Rattle.gp_machine.specs.Precedence.{is_before};
ghost use Rattle.gp_machine.specs.RowChanges.{RowChange};
ghost use Rattle.gp_serial.specs.Anomalies as s;
ghost use Rattle.gp_serial.specs.AnomalyLaws.{IsShown};
ghost use Rattle.gp_serial.specs.Graphs.{least_cycle};
ghost use Rattle.gp_serial.specs.LeastCycles.{IsCycleOf, IsLeastCycle};
ghost use Rattle.gp_serial.specs.PairCycles.{pair_cycles};
ghost use Rattle.gp_serial.specs.PairLaws.{ArePairCycles, GoesBackIn};
ghost use Rattle.gp_serial.specs.Serializing.{by_number};

/// The least cycle of ascending numbers, if there is one, is a cycle of these numbers. None is shorter, none of its length comes before it in order, it begins at
/// its least number, and no number occurs twice in it.
pub fn least_cycles_are_shortest()
    ensures { (is_before : ℕ → ℕ → Bool) (all : List ℕ) → AllPairs (λ a b. a < b) all
        → least_cycle is_before all ≢ [] → IsLeastCycle is_before all (least_cycle is_before all) }
{}

/// The cycles of the pairs of ascending numbers that go back: each is the first of the shortest ones through such a pair, each pair on a cycle stands in one of them,
/// and none occurs twice.
pub fn pair_cycles_are_first()
    ensures { (is_before goes_back : ℕ → ℕ → Bool) (all : List ℕ) → AllPairs (λ a b. a < b) all
        → ArePairCycles is_before all goes_back (pair_cycles is_before all goes_back) }
{}

/// Where a pair that goes back stands in each cycle, the first of the cycles of pairs is the least cycle, and there are none where there is none.
pub fn first_pair_cycles_are_least()
    ensures { (is_before goes_back : ℕ → ℕ → Bool) (all : List ℕ) → AllPairs (λ a b. a < b) all
        → ((other : List ℕ) → IsCycleOf is_before all other → GoesBackIn goes_back all other)
        → least_cycle is_before all ≡ unwrap_or (slice_get (pair_cycles is_before all goes_back) 0) [] }
{}

/// In each cycle of transactions that committed, a pair goes back: the versions that these made cannot rise all around.
pub fn cycles_go_back()
    ensures { (tables : List Table) (entries : List Entry) (changes : List RowChange) → KeepsSessions entries
        → (other : List ℕ) → IsCycleOf (is_before tables entries changes) (by_number entries) other
        → GoesBackIn (s.goes_back tables entries changes) (by_number entries) other }
{}

/// The first of all anomalies is the least cycle, and there are none where there is none.
pub fn anomalies_begin_with_the_least_cycle()
    ensures { (tables : List Table) (entries : List Entry) (changes : List RowChange) → KeepsSessions entries
        → least_cycle (is_before tables entries changes) (by_number entries)
        ≡ unwrap_or (slice_get (s.cycles tables entries changes) 0) [] }
{}

/// There is no anomaly exactly where the relation has no cycle of transactions that committed.
pub fn no_anomaly_without_a_cycle()
    ensures none { (tables : List Table) (entries : List Entry) (changes : List RowChange) → KeepsSessions entries
        → s.cycles tables entries changes ≡ []
        → (other : List ℕ) → IsCycleOf (is_before tables entries changes) (by_number entries) other → ⊥ }
    ensures only { (tables : List Table) (entries : List Entry) (changes : List RowChange) → KeepsSessions entries
        → ((other : List ℕ) → IsCycleOf (is_before tables entries changes) (by_number entries) other → ⊥)
        → s.cycles tables entries changes ≡ [] }
{}

/// Each anomaly shows for each of its transactions and the next one a reason for which that comes before this one.
pub fn anomalies_show_reasons()
    ensures { (tables : List Table) (entries : List Entry) (changes : List RowChange) → KeepsSessions entries
        → AllByRecursion (λ cycle. IsShown tables entries changes cycle (s.anomaly_of (s.facts tables entries changes) cycle))
        (s.cycles tables entries changes) }
{}

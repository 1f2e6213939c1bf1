//! Laws about the definitions in `specs/`. Nothing runs here: each function is empty, and its
//! contract is the law.

ghost use Rattle.std.specs.Prelude.{◌≡◌, List};
ghost use Rattle.std.specs.Cmp.Lexicographic.{slice_cmp};
ghost use Rattle.std.specs.List.Sorted.{IsPermutation, IsSortedByKey, IsStableByKey};
ghost use Rattle.std.specs.Ordering.{nat_cmp};
ghost use Rattle.board.specs.Sheet.{Sheet};
ghost use Rattle.statistics_api.specs.Texts.{by_name};

/// Queues by name are the same queues, they ascend by the bytes of their names, and those of one name
/// stand as they stood. This says all of it: no other list is so.
pub fn queues_by_name_ascend()
    ensures ascending { (sheets : List Sheet) → IsSortedByKey (λ s. s.name) (slice_cmp nat_cmp) (by_name sheets) }
    ensures same { (sheets : List Sheet) → IsPermutation sheets (by_name sheets) }
    ensures stable { (sheets : List Sheet) → IsStableByKey (λ s. s.name) (slice_cmp nat_cmp) sheets (by_name sheets) }
    ensures no_other { (sheets order : List Sheet)
        → IsSortedByKey (λ s. s.name) (slice_cmp nat_cmp) order
        → IsStableByKey (λ s. s.name) (slice_cmp nat_cmp) sheets order
        → order ≡ by_name sheets }
{}

ghost use Rattle.std.specs.Prelude.{◌≡◌, ℕ, List, Some};
ghost use Rattle.queue_config.specs.AlarmRules.{metric_named, metrics, operator_named, operators};
ghost use Rattle.queue_config.specs.Named.{HasRow};
ghost use Rattle.queue_config.specs.declared.metric.Metric.{Metric};
ghost use Rattle.queue_config.specs.declared.operator.Operator.{Operator};

/// Every metric and every operator is found by a name, and by no text but that of its row.
pub fn each_is_found_by_its_own_name()
    ensures metrics { (metric : Metric) → (name : List ℕ) × (metric_named name ≡ Some metric) }
    ensures no_other_metric { (name : List ℕ) (metric : Metric) → metric_named name ≡ Some metric → HasRow name metric metrics }
    ensures operators { (operator : Operator) → (name : List ℕ) × (operator_named name ≡ Some operator) }
    ensures no_other_operator { (name : List ℕ) (operator : Operator) → operator_named name ≡ Some operator → HasRow name operator operators }
{}

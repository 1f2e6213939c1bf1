//! Laws about the definitions in `specs/`. Nothing runs here: each function is empty, and its
//! contract is the law.

ghost use Rattle.std.specs.Prelude.{◌≡◌, ◌↔◌, ℕ, ◌+◌, ◌≤◌, ◌<◌, not, List, ◌++◌, length, IsTrue};
ghost use Rattle.std.specs.List.{All};
ghost use Rattle.circular_buffer.specs.Buffer.{keep_last};
ghost use Rattle.queue_config.specs.AlarmRules.{Rule};
ghost use Rattle.queue_config.specs.declared.operator.Operator.TheVariants.{GreaterThanThreshold, GreaterThanOrEqualToThreshold, LessThanThreshold, LessThanOrEqualToThreshold};
ghost use Rattle.metric_window.specs.declared.row.Row.{Row};
ghost use Rattle.alarm.specs.AlarmState.{compares, satisfies, breaches_in, state_with, alarm_state_of};
ghost use Rattle.alarm.specs.declared.state.AlarmState.TheVariants.{InsufficientData, Okay, Alarm};
ghost use Rattle.alarm.specs.KeptAlarm.{new_alarm, with_minutes, kept_state};

/// What each state says.
pub fn states_tell_minutes_and_breaches()
    ensures insufficient { (rule : Rule) (complete breaching : ℕ)
        → (state_with rule complete breaching ≡ InsufficientData) ↔ (complete < rule.minutes) }
    ensures alarm { (rule : Rule) (complete breaching : ℕ)
        → (state_with rule complete breaching ≡ Alarm) ↔ ((rule.minutes ≤ complete) × (rule.breaches ≤ breaching)) }
    ensures okay { (rule : Rule) (complete breaching : ℕ)
        → (state_with rule complete breaching ≡ Okay) ↔ ((rule.minutes ≤ complete) × (breaching < rule.breaches)) }
{}

/// An alarm that is on stays on with more breaches, and after more minutes.
pub fn more_breaches_keep_an_alarm()
    ensures breaches { (rule : Rule) (complete fewer more : ℕ) → fewer ≤ more
        → state_with rule complete fewer ≡ Alarm → state_with rule complete more ≡ Alarm }
    ensures minutes { (rule : Rule) (earlier later breaching : ℕ) → earlier ≤ later
        → state_with rule earlier breaching ≡ Alarm → state_with rule later breaching ≡ Alarm }
{}

/// Each value satisfies one of two opposite operators, and not the other.
pub fn operators_are_opposites()
    ensures greater { (value threshold : ℕ)
        → compares GreaterThanThreshold value threshold ≡ not (compares LessThanOrEqualToThreshold value threshold) }
    ensures less { (value threshold : ℕ)
        → compares LessThanThreshold value threshold ≡ not (compares GreaterThanOrEqualToThreshold value threshold) }
{}

/// The breaches of minutes that are counted in two parts add up, so that their order does not count.
pub fn breaches_add_up()
    ensures parts { (rule : Rule) (rows more : List Row)
        → breaches_in rule (rows ++ more) ≡ breaches_in rule rows + breaches_in rule more }
    ensures order { (rule : Rule) (complete : ℕ) (rows more : List Row)
        → alarm_state_of rule complete (rows ++ more) ≡ alarm_state_of rule complete (more ++ rows) }
{}

/// Where a rule asks for all of its minutes, it is on only where each of them is a breach.
pub fn all_minutes_are_breaches()
    ensures { (rule : Rule) (complete : ℕ) (rows : List Row) → length rows ≤ rule.breaches
        → alarm_state_of rule complete rows ≡ Alarm → All (λ row. IsTrue (satisfies rule row)) rows }
{}

/// An alarm that was told the rows of all minutes since the queue's creation, one by one, has the state of
/// its rule: by how many they are, and by the last ones.
pub fn states_are_of_the_rows_told()
    ensures { (rule : Rule) (rows : List Row)
        → kept_state (with_minutes (new_alarm rule) rows) ≡ alarm_state_of rule (length rows) (keep_last rule.minutes rows) }
{}

//! Which queues' statistics the answer to a request takes.

ghost use Rattle.std.specs.Prelude.{◌≡◌, ◌≢◌, ℕ, true, List};
ghost use Rattle.board.specs.Sheet.{Sheet};
ghost use Rattle.statistics_api.specs.Response.{response_of};
ghost use Rattle.statistics_api.specs.Asked.{taken, is_of_all, TellsOfQueues};
ghost use Rattle.statistics_api.specs.declared.asked.AskedSheets.TheVariants.{Nothing, Queues};

use crate::routes::{Route, target_without_memory};

/// Of which queues a request asks for statistics.
#[derive(Clone, Copy, Debug)]
pub enum AskedSheets<'p> {
    /// Of none: the answer is the same, whatever queues there are.
    Nothing,
    /// Of all.
    Queues,
    /// Of the one that has a name, if there is one.
    Queue(&'p str),
}

/// Of which queues a request asks for statistics. Those of others do not change what [`respond`](crate::respond)
/// answers, and where it asks for some, an answer can tell of them.
#[tactic(auto, using(crate::proofs::AskedLemmas::enough_named, crate::proofs::AskedLemmas::enough_none, crate::proofs::AskedLemmas::enough_refused, crate::proofs::AskedLemmas::of_metrics))]
pub fn asked_for<'p>(method: &str, path: &'p str) -> AskedSheets<'p>
    ensures enough { (sheets : List Sheet) (own : List ℕ) → response_of method.now path.now sheets own ≡ response_of method.now path.now (taken result sheets) own }
    ensures needed { result ≢ Nothing → TellsOfQueues method.now path.now }
    ensures all { result ≡ Queues → is_of_all path.now ≡ true }
{
    if method != "GET" {
        return AskedSheets::Nothing;
    }
    if path == "/metrics" {
        return AskedSheets::Queues;
    }
    match target_without_memory(path) {
        None => AskedSheets::Nothing,
        Some(target) if target.route == Route::Queues => AskedSheets::Queues,
        Some(target) => AskedSheets::Queue(target.name),
    }
}

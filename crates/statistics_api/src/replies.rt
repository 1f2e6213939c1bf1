//! What a request for statistics is answered.

ghost use Rattle.std.specs.Prelude.{◌≡◌, ◌≢◌, ◌⊎◌, false, Ok, IfOk, option_map, string_bytes};
ghost use Rattle.message.specs.Fault.{Meets};
ghost use Rattle.statistics_api.specs.Steps.{result_map};
ghost use Rattle.statistics_api.specs.private.Router.{router_rows};
ghost use Rattle.statistics_api.specs.Text.{is_written, shown};
ghost use Rattle.statistics_api.specs.Answer.{answer_of, told, text_of, not_found, method_not_allowed, out_of_memory, sheet_named};

use crate::routes::{Route, routes, target_of, target_without_memory};
use crate::text::AnswerText;
use crate::texts::{alarms_text, rows_text, sheet_text, sheets_text};
use board::Sheet;
use matchit::Router;
use message::Fault;
use std::alloc::Global;

/// There is no such path, or no such queue.
fn not_found() -> (u16, AnswerText)
    ensures answer { shown result ≡ not_found }
    ensures constant { is_written result.1 ≡ false }
{
    (404, AnswerText::Constant(r#"{"message":"not found"}"#))
}

/// The path is one, and the method is not `GET`.
pub(crate) fn method_not_allowed() -> (u16, AnswerText)
    ensures answer { shown result ≡ method_not_allowed }
    ensures constant { is_written result.1 ≡ false }
{
    (
        405,
        AnswerText::Constant(r#"{"message":"method not allowed"}"#),
    )
}

/// The text cannot be written for lack of memory.
pub(crate) fn out_of_memory() -> (u16, AnswerText)
    ensures answer { shown result ≡ out_of_memory }
    ensures constant { is_written result.1 ≡ false }
{
    (500, AnswerText::Constant(r#"{"message":"out of memory"}"#))
}

/// The first queue of a name.
fn sheet_named<'a>(name: &str, sheets: &'a [Sheet]) -> Option<&'a Sheet>
    ensures { option_map (λ s. s.now) result ≡ sheet_named name.now sheets.now }
{
    for sheet in sheets {
        if sheet.name.as_text() == name {
            return Some(sheet);
        }
    }
    None
}

/// What a path tells of a queue.
fn text_of(alloc: Global, route: Route, sheet: &Sheet) -> Result<String, Fault>
    ensures { Meets (result_map (λ s. string_bytes s) result) (Ok (text_of route sheet.now)) }
{
    match route {
        Route::Rows => rows_text(alloc, sheet.rows.as_slice()),
        Route::Alarms => alarms_text(alloc, sheet.alarms.as_slice()),
        Route::Queues | Route::Queue => sheet_text(alloc, sheet),
    }
}

/// What a path tells.
fn told(
    alloc: Global,
    route: Route,
    name: &str,
    sheets: &[Sheet],
) -> Result<(u16, AnswerText), Fault>
    ensures answer { Meets (result_map shown result) (Ok (told route name.now sheets.now)) }
    ensures constant { IfOk result (λ answer. (answer.0 ≡ 200) ⊎ (is_written answer.1 ≡ false)) }
{
    if route == Route::Queues {
        return Ok((200, AnswerText::Written(sheets_text(alloc, sheets)?)));
    }
    match sheet_named(name, sheets) {
        Some(sheet) => Ok((200, AnswerText::Written(text_of(alloc, route, sheet)?))),
        None => Ok(not_found()),
    }
}

/// The router of all paths, or lack of memory.
fn router(alloc: Global) -> Result<Router<Route>, Fault>
    ensures { IfOk result (λ router. router ≡ router_rows) }
{
    routes(alloc).map_err(|_| Fault::OutOfMemory)
}

/// The answer, or a fault where it finds no memory.
fn answer_in_memory(
    alloc: Global,
    method: &str,
    path: &str,
    sheets: &[Sheet],
) -> Result<(u16, AnswerText), Fault>
    ensures answer { IfOk result (λ answer. shown answer ≡ answer_of method.now path.now sheets.now) }
    ensures constant { IfOk result (λ answer. (answer.0 ≡ 200) ⊎ (is_written answer.1 ≡ false)) }
{
    let router = router(alloc)?;
    match target_of(&router, path) {
        None => Ok(not_found()),
        Some(_) if method != "GET" => Ok(method_not_allowed()),
        Some(target) => told(alloc, target.route, target.name, sheets),
    }
}

/// What a path tells where it takes no memory, and lack of memory where it takes some.
fn told_without_memory(route: Route, name: &str, sheets: &[Sheet]) -> (u16, AnswerText)
    ensures answer { (shown result ≡ told route name.now sheets.now) ⊎ (shown result ≡ out_of_memory) }
    ensures exact { (told route name.now sheets.now).0 ≢ 200 → shown result ≡ told route name.now sheets.now }
    ensures constant { is_written result.1 ≡ false }
{
    match sheet_named(name, sheets) {
        None if route != Route::Queues => not_found(),
        _ => out_of_memory(),
    }
}

/// The answer where it takes no memory, and lack of memory where it takes some.
fn answer_without_memory(method: &str, path: &str, sheets: &[Sheet]) -> (u16, AnswerText)
    ensures answer { (shown result ≡ answer_of method.now path.now sheets.now) ⊎ (shown result ≡ out_of_memory) }
    ensures exact { (answer_of method.now path.now sheets.now).0 ≢ 200 → shown result ≡ answer_of method.now path.now sheets.now }
    ensures constant { is_written result.1 ≡ false }
{
    match target_without_memory(path) {
        None => not_found(),
        Some(_) if method != "GET" => method_not_allowed(),
        Some(target) => told_without_memory(target.route, target.name, sheets),
    }
}

/// The answer to a request for statistics (this project's own resource): a status and a text. There
/// are four paths, under `/statistics/queues`; every other is 404, and so is a queue that is not among
/// the sheets. A method other than `GET` on one of these paths is 405, whatever queue it names. 500,
/// which takes no memory itself, may stand in the place of a 200 for lack of memory, and of no other
/// answer. The sheets come in any order; of two of one name the first is found.
pub fn answer(alloc: Global, method: &str, path: &str, sheets: &[Sheet]) -> (u16, AnswerText)
    ensures answer { (shown result ≡ answer_of method.now path.now sheets.now) ⊎ (shown result ≡ out_of_memory) }
    ensures exact { (answer_of method.now path.now sheets.now).0 ≢ 200 → shown result ≡ answer_of method.now path.now sheets.now }
    ensures constant { (result.0 ≡ 200) ⊎ (is_written result.1 ≡ false) }
{
    match answer_in_memory(alloc, method, path, sheets) {
        Ok(answer) => answer,
        Err(_) => answer_without_memory(method, path, sheets),
    }
}

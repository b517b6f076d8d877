//! The texts by which a log names items: the node, and what it does.
ghost use Rattle.std.specs.Prelude.{◌≡◌, ◌<◌, ◌++◌, [], ℕ, IfNone, IfOk, IfSome, OnOk, get_or, map, string_bytes};
ghost use Rattle.std.specs.Bool.{OnFalse, OnTrue};
ghost use Rattle.cpg_base.specs.Graph.{home, item_count};
ghost use Rattle.cpg_base.specs.Name.{IsName};
ghost use Rattle.cpg_base.specs.Numbers.{numbers_below};
ghost use Rattle.cpg_log.specs.Log.{act_text, is_act};
ghost use Rattle.cpg_log.specs.Reading.{HaveNames, IsNew};

use crate::lines::are_same;
use crate::log::Log;
use cpg_base::{OutOfMemory, Problem};
use cpg_label::write_item;
use std::alloc::{AllocError, Global};

/// Returns whether a node starts or sends an item: a process, or a message or broadcast that is sent on the bus.
fn is_act(problem: &Problem, item: u32) -> bool
    requires { item < item_count problem.now }
    ensures { result ≡ is_act problem.now item }
{
    (item as usize) < problem.processes().len() || problem.is_sent(item)
}

/// Writes the text of an item: the node that starts or sends it, and what it does. `Err` only if memory runs out.
fn write_act(out: &mut String, problem: &Problem, item: u32) -> Result<(), AllocError>
    requires { item < item_count problem.now }
    ensures text { OnOk result (string_bytes out.new ≡ string_bytes out.old ++ act_text problem.now item) }
    ensures name { IsName (get_or problem.now.nodes (home problem.now item) []) }
{
    let home = problem.home(item);
    let node = problem.nodes()[home as usize].as_str();
    write!(out, "{node} ")?;
    write_item(out, problem, item)
}

/// Returns the text of an item; `Err` only if memory runs out.
fn act_text(alloc: Global, problem: &Problem, item: u32) -> Result<String, OutOfMemory>
    requires { item < item_count problem.now }
    ensures text { IfOk result (λ text. string_bytes text ≡ act_text problem.now item) }
    ensures name { IsName (get_or problem.now.nodes (home problem.now item) []) }
{
    let mut out = String::new(alloc);
    write_act(&mut out, problem, item)?;
    Ok(out)
}

/// Returns the texts of all items, by number; `Err` only if memory runs out.
pub fn act_texts(alloc: Global, problem: &Problem) -> Result<Vec<String>, OutOfMemory>
    ensures texts { IfOk result (λ texts. map string_bytes texts.items ≡ map (act_text problem.now) (numbers_below (item_count problem.now))) }
    ensures names { IfOk result (λ _. HaveNames problem.now (item_count problem.now)) }
{
    let count = problem.item_count();
    let mut texts = Vec::new(alloc);
    for item in 0..count {
        let text = act_text(alloc, problem, item)?;
        texts.push(text)?;
    }
    Ok(texts)
}

/// Returns the text of an item out of those of all. `problem` is there for the contract alone.
fn text_of<'a>(problem: &Problem, texts: &'a [String], item: u32) -> &'a [u8]
    requires texts { map string_bytes texts.now ≡ map (act_text problem.now) (numbers_below (item_count problem.now)) }
    requires item { item < item_count problem.now }
    ensures { result.now ≡ act_text problem.now item }
{
    texts[item as usize].as_bytes()
}

/// Returns whether a text is that of an item, some node starts or sends the item, and the log doesn't name it yet. `texts`
/// are those of all items.
fn is_named(problem: &Problem, texts: &[String], log: &Log, item: u32, text: &[u8]) -> bool
    requires texts { map string_bytes texts.now ≡ map (act_text problem.now) (numbers_below (item_count problem.now)) }
    requires item { item < item_count problem.now }
    ensures yes { OnTrue result (IsNew problem.now log.now text.now item) }
    ensures no { OnFalse result (¬ IsNew problem.now log.now text.now item) }
{
    if !are_same(text, text_of(problem, texts, item)) {
        return false;
    }
    if !is_act(problem, item) {
        return false;
    }
    log.time_of(item).is_none()
}

/// Returns the item whose text this is, of those that a node starts or sends and that the log doesn't name yet; `None`
/// exactly if there is none. `texts` are those of all items.
pub fn item_named(problem: &Problem, texts: &[String], log: &Log, text: &[u8]) -> Option<u32>
    requires { map string_bytes texts.now ≡ map (act_text problem.now) (numbers_below (item_count problem.now)) }
    ensures some { IfSome result (IsNew problem.now log.now text.now) }
    ensures none { IfNone result ((x : ℕ) → ¬ IsNew problem.now log.now text.now x) }
{
    for item in 0..problem.item_count() {
        if is_named(problem, texts, log, item, text) {
            return Some(item);
        }
    }
    None
}

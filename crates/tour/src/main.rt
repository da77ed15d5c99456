// A tour of the library: judges books with right tables and with wrong ones, makes their models,
// plays calls on them and prints what each answered.
#![tactic(auto)]

mod order;
mod pump;
mod show;

use judge::{Call, Entry, Model, Rejected};
use pattern::PatternKind;
use show::Exchange;

fn main(rt: HostRuntime) -> anyhow::Result<()> {
    let heap = rt.alloc();
    rt.println("One pump, one token, any number of customers. Fault: two hold the pump.")?;
    judge_and_play(
        &rt,
        pump::book(heap)?,
        &pump::wrong_table(heap)?,
        &pump::calls(heap)?,
    )?;
    judge_and_play(
        &rt,
        pump::book(heap)?,
        &pump::table(heap)?,
        &pump::calls(heap)?,
    )?;
    rt.println("The same, observed. Fault: held twice in a row without a release.")?;
    let free_for_all = order::held_twice(heap, [0, 0, 1])?;
    judge_and_play(
        &rt,
        free_for_all,
        &order::held_twice_table(heap)?,
        &pump::calls(heap)?,
    )?;
    let with_token = order::held_twice(heap, pump::TOKEN_AND_WAITING)?;
    judge_and_play(
        &rt,
        with_token,
        &order::held_twice_table(heap)?,
        &pump::calls(heap)?,
    )?;
    rt.println("The same, observed twice. Fault: somebody held the pump and nobody came.")?;
    let twice = order::held_before_any_came(heap)?;
    judge_and_play(
        &rt,
        twice,
        &order::held_before_any_came_table(heap)?,
        &pump::calls(heap)?,
    )
}

/// Judges the table over the kind and prints the verdict; where it is accepted, plays the calls.
fn judge_and_play<K: PatternKind + Drop>(
    rt: &HostRuntime,
    kind: K,
    table: &[Entry],
    calls: &[Call],
) -> anyhow::Result<()> {
    match Model::new(kind, table) {
        Ok(model) => {
            let rows = model.kind().rows();
            let rules = model.kind().rules();
            let entries = table.len();
            println!(rt; "ACCEPT: {rows} rows, {rules} rules, {entries} open cases, each covered")?;
            play(rt, model, calls)
        }
        Err(Rejected { kind: _, refusal }) => {
            println!(rt; "REFUSE {refusal}")?;
            Ok(())
        }
    }
}

fn play<K: PatternKind + Drop>(
    rt: &HostRuntime,
    mut model: Model<K>,
    calls: &[Call],
) -> anyhow::Result<()> {
    let answers = model.play(rt.alloc(), calls)?;
    for (call, answer) in calls.iter().zip(answers.iter()) {
        let exchange = Exchange { call, answer };
        println!(rt; "{exchange}")?;
    }
    Ok(())
}

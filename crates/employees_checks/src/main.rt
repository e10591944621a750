//! Checks over the employee example: facts lodged, a query derived, another refuted, a constraint met, calls refused.
#![tactic(auto)]

mod calls_made;
mod checks;
mod personnel;
mod show;

use anyhow::anyhow;
use book::draft::Draft;
use checks::check_all;
use personnel::write_down;

fn main(rt: HostRuntime) -> anyhow::Result<()> {
    run(&rt)
}

fn run(rt: &HostRuntime) -> anyhow::Result<()> {
    let mut draft = Draft::new(rt.alloc())?;
    if write_down(&mut draft).is_err() {
        return Err(anyhow!("the rule book was refused"));
    }
    println!(rt; "checks")?;
    check_all(rt, draft.seal())
}

//! What the program prints.
use calls::answer::Verdict;
use calls::event::Event;
use refusals::refusal::Refusal;
use std::fmt;
use std::fmt::Display;

/// Prints a call's number and its answer.
pub(crate) fn show_event(rt: &HostRuntime, number: usize, event: Event) -> anyhow::Result<()> {
    match event {
        Event::Lodge(_, answer) => show(rt, number, "lodge", answer),
        Event::OpenDerivation(_, answer) => show(rt, number, "open derivation", done(answer)),
        Event::OpenModel(_, answer) => show(rt, number, "open model", done(answer)),
        Event::Step { answer, .. } => show(rt, number, "step", answer),
        Event::Add { answer, .. } => show(rt, number, "add", answer),
        Event::Claim { answer, .. } => show(rt, number, "claim", answer.map(Found)),
        Event::Clash { answer, .. } => show(rt, number, "clash", answer.map(Found)),
        Event::Refute { answer, .. } => show(rt, number, "refute", answer.map(Found)),
        Event::StrikeDerivation { answer, .. } => show(rt, number, "strike", done(answer)),
        Event::StrikeModel { answer, .. } => show(rt, number, "strike", done(answer)),
        Event::NoSlip => {
            println!(rt; "{number} no slip in that slot")?;
            Ok(())
        }
    }
}

fn show<T: Display + Drop>(
    rt: &HostRuntime,
    number: usize,
    call: &str,
    answer: Result<T, Refusal>,
) -> anyhow::Result<()> {
    match answer {
        Ok(value) => println!(rt; "{number} {call}: {value}")?,
        Err(refusal) => println!(rt; "{number} {call}: {refusal}")?,
    }
    Ok(())
}

fn done(answer: Result<(), Refusal>) -> Result<&'static str, Refusal> {
    answer.map(|()| "done")
}

/// A verdict in the words of this program.
#[derive(Clone, Copy)]
struct Found(Verdict);

impl Display for Found {
    fn fmt<W: fmt::Write>(&self, f: &mut fmt::Formatter<W>) -> fmt::Result {
        match self.0 {
            Verdict::NotEntailed { query, size } => write!(f, "not entailed {query} {size}"),
            verdict => write!(f, "{verdict}"),
        }
    }
}

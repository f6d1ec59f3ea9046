// A tour of what there is: a measured part is narrowed and picked, guards are answered from a list, and a file is written, read and listed.
#![tactic(auto)]

mod answering;
mod filing;
mod measuring;

fn yes_or_no(answer: bool) -> &'static str {
    if answer { "yes" } else { "no" }
}

fn run(rt: &HostRuntime) -> anyhow::Result<()> {
    measuring::show(rt)?;
    answering::show(rt)?;
    filing::show(rt)
}

fn main(rt: HostRuntime) -> anyhow::Result<()> {
    run(&rt)
}

//! Small tasks, answered by pools of workers. What the stored run must print was worked out by hand.
#![tactic(auto)]

ghost use Rattle.std.specs.Prelude.{◌^◌, ◌<◌, ◌≤◌, length};

mod doubles;
mod notes;

use batch_run::run_all;
use doubles::Doubles;
use input_output::{Gate, HoldGate, OpenGate};
use notes::NoteGate;
use std::alloc::Global;
use std::io;
use std::sync::Wait;
use std::thread::Threads;

/// Answers tasks by so many workers, and prints the answers and how often the job was asked.
fn tell<R: Threads + Wait + Sync + Print, G: Gate + Sync>(
    rt: &R,
    alloc: Global,
    job: &Doubles,
    tasks: &[u32],
    workers: u32,
    gate: &G,
) -> anyhow::Result<()>
    requires workers { 1 ≤ workers }
    requires few { length tasks.now < 2 ^ 32 }
{
    let answers = run_all(rt, alloc, job, tasks, workers, gate)?;
    print!(rt; "{workers} workers:")?;
    tell_answers(rt, &answers)?;
    println!(rt; ", asked {} times", job.asked())?;
    Ok(())
}

fn tell_answers(rt: &impl Print, answers: &[u64]) -> io::Result<()> {
    for answer in answers {
        print!(rt; " {answer}")?;
    }
    Ok(())
}

fn main(rt: HostRuntime) -> anyhow::Result<()> {
    let alloc = rt.alloc();
    let tasks = [3, 1, 4, 1, 5];
    let pair = [7, 9];
    for workers in [1, 3] {
        tell(&rt, alloc, &Doubles::new(), &[], workers, &OpenGate)?;
    }
    for workers in [1, 2, 5, 8] {
        tell(&rt, alloc, &Doubles::new(), &tasks, workers, &OpenGate)?;
    }
    println!(&rt; "memory is wanted once")?;
    for workers in [1, 2] {
        let short = Doubles::short_of_memory(1);
        tell(&rt, alloc, &short, &tasks, workers, &OpenGate)?;
    }
    println!(&rt; "memory is wanted by both workers")?;
    let short = Doubles::short_of_memory(2);
    tell(&rt, alloc, &short, &tasks, 2, &OpenGate)?;
    println!(&rt; "held")?;
    let gate = HoldGate::new();
    tell(&rt, alloc, &Doubles::new(), &pair, 2, &gate)?;
    println!(&rt; "met {}", gate.met())?;
    println!(&rt; "noted")?;
    let gate = NoteGate::new();
    tell(&rt, alloc, &Doubles::new(), &pair, 1, &gate)?;
    gate.tell(&rt)?;
    Ok(())
}

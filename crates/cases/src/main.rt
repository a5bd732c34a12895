// The paper's cases for the calls that change and those that look, with the limits, run over tables of
// four lengths. Standard input has the steps, a line each. What must come out is stored from the
// separate Rust one (rust/plain/examples/cases.rs), which reads the same steps.
#![tactic(auto)]

use agreement::Record;
use keeping::Changed;
use std::io;
use std::io::Read;
use units::{Stamp, WideMillis};

mod look;
mod show;
mod steps;

use look::look;
use show::show;
use steps::{Call, Change, name_of};

// A record and the table that it speaks of.
#[derive(Drop)]
struct Kept<'a> {
    rec: Record,
    table: &'a mut [u64],
}

impl<'a> Kept<'a> {
    fn change(&mut self, change: Change) -> Changed {
        let rec = self.rec;
        let table = &mut *self.table;
        match change {
            Change::Append(at, duration, count) => timeline::append(
                rec, table, at, duration, count,
            ),
            Change::Stamp(at, duration, count) => {
                timeline::append_stamp(rec, table, at, duration, count)
            }
            Change::Pair(at, duration, count, clock) => {
                timeline::append_trim(rec, table, at, duration, count, clock)
            }
            Change::Trim(clock) => timeline::trim(rec, table, clock),
        }
    }

    fn change_lent(&mut self, change: Change) -> Changed {
        let rec = self.rec;
        let table = &mut *self.table;
        match change {
            Change::Append(at, duration, count) => held::append(rec, table, at, duration, count),
            Change::Stamp(at, duration, count) => {
                held::append_stamp(rec, table, at, duration, count)
            }
            Change::Pair(at, duration, count, clock) => {
                held::append_trim(rec, table, at, duration, count, clock)
            }
            Change::Trim(clock) => held::trim(rec, table, clock),
        }
    }

    // What a call came to, kept and shown.
    fn take(&mut self, out: &impl Print, changed: Changed) -> io::Result<()> {
        self.rec = changed.rec;
        show(out, changed, self.table)
    }

    // Two calls, and so two outcomes, both shown with what the second left.
    fn follow(
        &mut self,
        out: &impl Print,
        at: Stamp,
        duration: u32,
        count: u32,
        clock: WideMillis,
    ) -> io::Result<()> {
        let both = held::follow(self.rec, self.table, at, duration, count, clock);
        let rec = both.rec;
        let outcome = both.appended;
        self.take(out, Changed { outcome, rec })?;
        let outcome = both.trimmed;
        self.take(out, Changed { outcome, rec })
    }

    fn step(&mut self, out: &impl Print, name: u8, line: &[u8]) -> io::Result<()> {
        out.write_all(line)?;
        print!(out; ":")?;
        match Call::of(name, line) {
            Call::Open(fields, first) => {
                let changed = timeline::open(fields, first, self.table);
                self.take(out, changed)
            }
            Call::Change(change) => {
                let changed = self.change(change);
                self.take(out, changed)
            }
            Call::Lent(change) => {
                let changed = self.change_lent(change);
                self.take(out, changed)
            }
            Call::Follow(at, duration, count, clock) => {
                self.follow(out, at, duration, count, clock)
            }
            Call::Look(call) => look(out, call, self.rec, self.table),
        }
    }
}

fn run(out: &impl Print, table: &mut [u64], steps: &[u8]) -> io::Result<()> {
    let rec = timeline::zero_record();
    let mut kept = Kept { rec, table };
    for line in steps.split(|byte| *byte == b'\n') {
        if let Some(name) = name_of(line) {
            kept.step(out, name, line)?;
        }
    }
    Ok(())
}

fn run_all(out: &impl Print, steps: &[u8]) -> io::Result<()> {
    run(out, &mut [9; 7], steps)?;
    run(out, &mut [9; 3], steps)?;
    run(out, &mut [9; 2], steps)?;
    run(out, &mut [9; 0], steps)
}

// The steps are 65,536 bytes at most; what stands behind them is not read.
const LONGEST: u64 = 65_536;

fn main(rt: HostRuntime) -> io::Result<()> {
    let mut steps = Vec::new(rt.alloc());
    rt.stdin().take(LONGEST).read_to_end(&mut steps)?;
    run_all(&rt, &steps)
}

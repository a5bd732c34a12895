// The file's cases, run. First the worked file of case B, written from calls. Then every file that
// the arguments name, read three ways into a table of two runs: byte by byte, in pieces of seven
// bytes, and at once; and what was accepted, written again. What must come out is stored from the separate
// Rust one (rust/plain/examples/files.rs).
#![tactic(auto)]

ghost use Rattle.std.specs.Prelude.{◌≤◌};

use file::ReadAnswer;
use std::fs::File;
use std::io::Read;
use std::rt::Files;
use std::{env, io};
use units::{WideMillis, WideTick};
use window::HeadFields;

mod show;

use show::{put_answer, put_file};

const WORDS: usize = 7;

// Case B after its trim at 18,000.
fn case_b(out: &impl Print) -> io::Result<()> {
    let mut table = [0u64; WORDS];
    let fields = HeadFields {
        timescale: 1000,
        offset: 0,
        start: 0,
        duration: 0,
        depth: 10000,
        first: 1,
        update: 0,
    };
    let opened = timeline::open(fields, WideTick(0), &mut table);
    let filled = timeline::append(opened.rec, &mut table, WideTick(0), 4000, 5);
    let trimmed = timeline::trim(filled.rec, &mut table, WideMillis(18000));
    put_file(out, trimmed.rec, &table)
}

fn read_in_pieces(bytes: &[u8], table: &mut [u64], size: usize) -> ReadAnswer
    requires { 1 ≤ size }
{
    let mut reader = file::begin();
    for piece in bytes.chunks(size) {
        reader = file::feed(reader, table, piece);
    }
    file::finish(reader, table)
}

fn judge(out: &impl Print, bytes: &[u8]) -> io::Result<()> {
    let mut table = [9u64; WORDS];
    put_answer(out, read_in_pieces(bytes, &mut table, 1), &table)?;
    put_answer(out, read_in_pieces(bytes, &mut table, 7), &table)?;
    let answer = file::read(bytes, &mut table);
    put_answer(out, answer, &table)?;
    println!(out;)?;
    if answer.line == 0 {
        put_file(out, answer.rec, &table)?;
    }
    Ok(())
}

// A file is 4,096 bytes at most; what stands behind them is not read.
const LONGEST: u64 = 4_096;

fn run_file<R: Files + AllocGlobal + Print>(rt: &R, name: &str) -> io::Result<()> {
    let mut bytes = Vec::new(rt.alloc());
    File::open(rt, name)?.take(LONGEST).read_to_end(&mut bytes)?;
    print!(rt; "{name}:")?;
    judge(rt, &bytes)
}

fn main(rt: HostRuntime) -> io::Result<()> {
    case_b(&rt)?;
    for name in env::args(&rt)?.skip(1) {
        run_file(&rt, name.as_str())?;
    }
    Ok(())
}

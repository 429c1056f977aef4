// Reads a box script from standard input and writes an answer for each command to standard output.
#![tactic(auto)]

use exchange::exchange::Exchange;
use std::io;
use std::io::{BufRead, BufReader, BufWriter, Write};

fn main(rt: HostRuntime) -> io::Result<()> {
    let heap = rt.alloc();
    let mut exchange = Exchange::new();
    let mut out = BufWriter::new(heap, rt.stdout())?;
    for line in BufReader::new(heap, rt.stdin())?.split(heap, b'\n') {
        if let Some(answer) = exchange.answer(heap, line?.as_slice())? {
            writeln!(out, "{answer}")?;
        }
    }
    out.flush()
}

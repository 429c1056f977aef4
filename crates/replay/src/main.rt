// Replays the stored sample: each line of data/script is performed, and its answer compared with what
// the oracle answered, line by line in data/answers.
#![tactic(auto)]

use exchange::exchange::Exchange;
use std::io::{BufRead, BufReader};
use std::{fs, io};

fn main(rt: HostRuntime) -> io::Result<()> {
    let heap = rt.alloc();
    let mut exchange = Exchange::new();
    let mut expected = BufReader::new(heap, fs::open(&rt, "answers")?)?.lines(heap);
    let mut same: u64 = 0;
    let mut other: u64 = 0;
    for line in BufReader::new(heap, fs::open(&rt, "script")?)?.split(heap, b'\n') {
        if let Some(answer) = exchange.answer(heap, line?.as_slice())? {
            let told = answer.to_string(heap)?;
            let agrees = match expected.next() {
                Some(wanted) => told.as_str() == wanted?.as_str(),
                None => false,
            };
            if agrees {
                same = same.saturating_add(1);
            } else {
                other = other.saturating_add(1);
                println!(rt; "other: {told}")?;
            }
        }
    }
    let left = expected.count();
    println!(rt; "{same} answers as the oracle's, {other} others, {left} missing")
}

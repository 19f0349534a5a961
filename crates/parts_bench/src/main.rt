//! Makes and calls the parts of the machine as often as its first word says, so that `benches/parts` can take their time and memory.
//! Each further word names a load, and a line says how often it did what it should.
#![tactic(auto)]

mod load;

use load::Load;
use std::process::ExitCode;
use std::{env, io};

fn main(rt: HostRuntime) -> io::Result<ExitCode> {
    let mut words = env::args(&rt)?.skip(1);
    let count: Option<u32> = words.next().and_then(|word| word.as_str().parse().ok());
    let Some(count) = count else {
        eprintln!(rt; "usage: parts_bench COUNT LOAD..")?;
        return Ok(ExitCode::FAILURE);
    };
    for word in words {
        let Some(load) = Load::of(word.as_str()) else {
            eprintln!(rt; "no load is named {word}")?;
            return Ok(ExitCode::FAILURE);
        };
        let Ok(done) = load.run(rt.alloc(), count) else {
            eprintln!(rt; "{word}: no room for {count}")?;
            return Ok(ExitCode::FAILURE);
        };
        println!(rt; "{word} {done}")?;
    }
    Ok(ExitCode::SUCCESS)
}

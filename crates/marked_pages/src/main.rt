//! `marked_pages CALL COUNT` repeats a call of a block_pool memory, so that its machine
//! instructions can be counted.
#![tactic(auto)]

mod calls;

use calls::{Call, answer};
use std::alloc::Global;
use std::process::ExitCode;
use std::{env, io};

fn words_of(rt: &HostRuntime, alloc: Global) -> io::Result<Vec<String>> {
    let mut words = Vec::new(alloc);
    for word in env::args(rt)?.skip(1) {
        words.push(word)?;
    }
    Ok(words)
}

fn asked(words: &[String]) -> Option<(Call, u64)> {
    match words {
        [call, count] => Some((
            Call::named(call.as_str())?,
            count.as_str().parse::<u64>().ok()?,
        )),
        _ => None,
    }
}

fn main(rt: HostRuntime) -> ExitCode {
    let Ok(words) = words_of(&rt, rt.alloc()) else {
        return ExitCode::FAILURE;
    };
    let Some((call, count)) = asked(words.as_slice()) else {
        return ExitCode::from(2);
    };
    let Some(told) = answer(rt.alloc(), call, count) else {
        return ExitCode::FAILURE;
    };
    match println!(rt; "{told}") {
        Ok(()) => ExitCode::SUCCESS,
        Err(_) => ExitCode::FAILURE,
    }
}

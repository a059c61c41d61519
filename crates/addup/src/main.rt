// Adds up prices of the size kind, one to a line, from standard input to standard output.
#![tactic(auto)]

use addition::answer_text;
use anyhow::anyhow;
use kinds::size::Size;
use std::io::{Read, Write};

fn main(rt: HostRuntime) -> anyhow::Result<()> {
    let mut text = Vec::new(rt.alloc());
    rt.stdin().read_to_end(&mut text)?;
    match answer_text::<Size>(&text) {
        Ok(line) => {
            rt.stdout().write_all(line.as_bytes())?;
            Ok(())
        }
        Err(refusal) => {
            rt.stdout().write_all(refusal.line().as_bytes())?;
            Err(anyhow!("refused"))
        }
    }
}

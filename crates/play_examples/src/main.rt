//! Plays each example, a file NAME.script in the folder that is named, or in the one that the program runs in, and tells whether the answer is what
//! NAME.report holds.
#![tactic(auto)]

use reports::LONGEST_REPORT;
use script_play::write_answer;
use std::{env, fs, io};

// The names of the examples in a folder, in order.
fn names(rt: HostRuntime, folder: &str) -> io::Result<Vec<String>> {
    let mut names = Vec::new(rt.alloc());
    for entry in fs::read_dir(&rt, folder)? {
        let entry = entry?;
        if let Some(name) = entry.file_name().strip_suffix(".script") {
            names.push(name.to_string(rt.alloc())?)?;
        }
    }
    names.sort()?;
    Ok(names)
}

fn has_its_report(rt: HostRuntime, folder: &str, name: &str) -> io::Result<bool> {
    let script = fs::read(&rt, format!(in rt.alloc(); "{folder}/{name}.script")?)?;
    let report = fs::read(&rt, format!(in rt.alloc(); "{folder}/{name}.report")?)?;
    let mut out = [0; LONGEST_REPORT];
    let len = write_answer(&script, &mut out);
    Ok(out[..len] == report[..])
}

fn main(rt: HostRuntime) -> io::Result<()> {
    let named = env::args(&rt)?.nth(1);
    let folder = match &named {
        Some(folder) => folder.as_str(),
        None => ".",
    };
    for name in names(rt, folder)? {
        let mark = if has_its_report(rt, folder, &name)? {
            "ok"
        } else {
            "has another report"
        };
        println!(rt; "{name} {mark}")?;
    }
    Ok(())
}

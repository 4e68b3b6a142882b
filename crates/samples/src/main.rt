// Prints, for each day file of the folder that it is run in, the file's name and its report.
#![tactic(auto)]

use report::whole::{REPORT_BYTES, day_text};
use std::fs;
use std::io::Write;

fn print_report(rt: &HostRuntime, name: &str) -> anyhow::Result<()> {
    let input = fs::read(rt, name)?;
    let mut table = [0; REPORT_BYTES];
    let len = day_text(&input, &mut table)?;
    println!(rt; "{name}")?;
    rt.stdout().write_all(&table[..len])?;
    Ok(())
}

fn main(rt: HostRuntime) -> anyhow::Result<()> {
    let heap = rt.alloc();
    let mut names: Vec<String> = Vec::new(heap);
    for entry in fs::read_dir(&rt, ".")? {
        let entry = entry?;
        names.push(String::from_str(heap, entry.file_name())?)?;
    }
    names.sort()?;
    for name in &names {
        print_report(&rt, name)?;
    }
    Ok(())
}

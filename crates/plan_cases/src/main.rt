#![tactic(auto)]

use zone_report::print_text;

// Reads plan texts from standard input, each ended by a line `---`, and prints what `print_zones` prints of each, and `---` after it.
fn main(rt: HostRuntime) -> anyhow::Result<()> {
    let mut text = String::new(rt.alloc());
    for line in rt.lines(rt.alloc()) {
        let line = line?;
        if line.as_str() == "---" {
            print_text(&rt, text.as_bytes())?;
            println!(rt; "---")?;
            text.clear();
        } else {
            writeln!(text, "{line}")?;
        }
    }
    Ok(())
}
